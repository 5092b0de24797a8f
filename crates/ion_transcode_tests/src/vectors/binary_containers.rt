//! Of the binary encoding: containers and annotations. Written by tests/vectors/make.py.

pub const ROWS: &str = r#"
~ A list's body is values.
%E0%01%00%EA%B3!%05%11|1|[5,true]%0A||F416FFC27D549976|.%<%8BK<|
%E0%01%00%EA%B1!%05|Overrun 5|[||4F1B8B520CF7252A|.%:%3')|
%E0%01%00%EA%B2%11|Truncated 6|[true||E4CE121BBBFAFF33|.%Y%X=|
~ An S-expression's body is values.
%E0%01%00%EA%C3q%04%B0|1|(name [])%0A||081E2E37B9BE89BD|.%8%F25O|
%E0%01%00%EA%C1q%04|Overrun 5|(||02DF02B67DE87B66|.%X%:D>|
%E0%01%00%EA%C3q%04|Truncated 7|(name||63964D092D21C3B1|.%H%:2'|
~ A struct's body is fields: a VarUInt, the id of the name, and a value.
%E0%01%00%EA%D5%84!%05%85%10|1|{name:5,version:false}%0A||24CA982511A3FDE8|.%6%QG8+U)|
%E0%01%00%EA%D2%84!|Overrun 6|{||FA0A52F09A0BED6B|.%#%@=8|
%E0%01%00%EA%D3%84%10%85|Overrun 8|{name:false||4E3682D2AFC0ECD7|.%2%@>G1|
%E0%01%00%EA%D2%8A%10|BadSymbol 5|{||FC09A069B5512852|.%N%@IQ|
~ After D1 a VarUInt has the length of a struct that has fields.
%E0%01%00%EA%D1%82%84%11|1|{name:true}%0A||689B5C8623E83E6D|.%I%Q:9O|
%E0%01%00%EA%D1%80|BadDescriptor 4|||9E75B27B2F0E8A7B|.%;%X,|
%E0%01%00%EA%D1|Truncated 4|||461886A3C8341A87|.%,%<|
~ Whether the ids after D1 rise is not checked.
%E0%01%00%EA%D1%84%85 %84 |1|{version:0,name:0}%0A||0AC5EBC9971C456C|.%+%Q[>FW4|
%E0%01%00%EA%D1%84%85 %8A |BadSymbol 8|{version:0||5D6A32A9359E78A3|.%V%Q3WAW'|
~ The id before a NOP pad in a struct means nothing.
%E0%01%00%EA%D5%FE%01%FF%84%11|1|{name:true}%0A||7994AC3CB159BC0A|.%I%(C3;AY|
%E0%01%00%EA%D4%FE%11%84%11|BadSymbol 5|{||8D0B6952C051F7B2|.%N%([U55|
~ A NOP pad in a struct has an id before it.
%E0%01%00%EA%D2%80%00|1|{}%0A||DF6554F7227A618F|.%&%X8K|
%E0%01%00%EA%D1%81%00|Overrun 6|{||33DC5DFA571108FE|.%#%K,6|
~ An annotation wrapper has a length of 3 to 13.
%E0%01%00%EA%E3%81%84%11|1|name::true%0A||766D5330BFD07F05|.%[%Q[WF|
%E0%01%00%EA%E1%81|BadDescriptor 4|||FA1A3EDC2334DBE2|.%;%@N|
%E0%01%00%EA%E2%81%84|BadDescriptor 4|||A6A5E8DA88B9F714|.%;%QNN|
~ Or it has the length 14, and after it a VarUInt of at least 3.
%E0%01%00%EA%EE%83%81%84%11|1|name::true%0A||793BCBA7055AEDD7|.%[%QO[3H|
%E0%01%00%EA%EE%82%81%84|BadAnnotation 4|||0A4E525D716E2510|.%H%Q@[G|
%E0%01%00%EA%EE%80|Overrun 4|||E5561269AF1206A6|.%=%XZ|
~ E0 in a container is no wrapper.
%E0%01%00%EA%B4%E3%81%84%11|1|[name::true]%0A||ED81D789CD88A933|.%K%FWJN[|
%E0%01%00%EA%B1%E0|BadDescriptor 5|[||9FED1CE5F28A1D28|.%F%@J|
%E0%01%00%EA%B3%E3%81%84%11|Overrun 5|[||05CF6CB2147AF011|.%:%FW+))|
~ Then comes how many octets the annotations have, and these, VarUInts with an id each.
%E0%01%00%EA%E5%82%84%85!%05%E5%82%00%84!%05|2|name::version::5%0Aname::5%0A||C5A7AAA752199D78|.%C%Q[LF[S+AC'/V|
%E0%01%00%EA%E4%81%04!%05|Overrun 6|||750877A228729FA6|.%[%1.=33|
%E0%01%00%EA%E5%82%84%8A!%05|BadSymbol 7|||B570561C49938CDC|.%?%Q[,M[1|
~ There is at least one annotation.
%E0%01%00%EA%E4%81%80!%05|1|$0::5%0A||B3462DC80826ADD3|.%D%Q[=>+|
%E0%01%00%EA%E3%80!%05|BadAnnotation 4|||E752B12EEF9D6414|.%H%'.GG|
~ The octets of the annotations leave some for the value.
%E0%01%00%EA%E5%82%84%85!%05|1|name::version::5%0A||E3DC174ABB86BCA4|.%2%Q[:M[R|
%E0%01%00%EA%E5%84%84%85%86%87|BadAnnotation 4|||FA9E9C20020DD2CF|.%H%Q[GGGG|
%E0%01%00%EA%E3%85%84%85|BadAnnotation 4|||F3F02359E7CF077E|.%H%@[GG|
~ One value fills the rest of the wrapper.
%E0%01%00%EA%E4%81%84!%05|1|name::5%0A||C5A26D12C9C47FF1|.%D%Q[=>+|
%E0%01%00%EA%E4%81%84%11%11|BadAnnotation 7|||EB1B50302F155090|.%P%Q[X>4|
%E0%01%00%EA%E4%81%84"%05|Overrun 7|||9B930E48665A57D5|.%;%Q[)>/|
~ The value is no wrapper.
%E0%01%00%EA%E7%81%84%B4%E3%81%84%11|1|name::[name::true]%0A||DEB335F50128375F|.%I%QVW>F6QY|
%E0%01%00%EA%E6%81%84%E3%81%84%11|BadAnnotation 7|||006D882680DAF548|.%P%Q[X>444|
%E0%01%00%EA%E6%81%84%E0%01%00%EA|BadAnnotation 7|||006D882680DAF548|.%P%Q[X>444|
~ The value is no NOP pad.
%E0%01%00%EA%E5%81%84%B2%01%FF|1|name::[]%0A||3CA33283A37FC222|.%9%Q[C>,-|
%E0%01%00%EA%E4%81%84%01%FF|BadAnnotation 7|||EB1B50302F155090|.%P%Q[X>4|
%E0%01%00%EA%E3%81%84%00|BadAnnotation 7|||9CE37A8208DA6014|.%P%Q[XF|
~ The type 15 is illegal.
%E0%01%00%EA%DF|1|null.struct%0A||80AB0979C9EAF537|.%G%<|
%E0%01%00%EA%F0|BadDescriptor 4|||63FB5E1FA38F47D2|.%;%<|
%E0%01%00%EA%F1%00|BadDescriptor 4|||720D99F2822BE6B5|.%;%<N|
"#;
