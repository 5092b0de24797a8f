//! Of the binary encoding: the stream, its numbers and descriptors. Written by tests/vectors/make.py.

pub const ROWS: &str = r#"
~ A binary stream begins with the version marker E0 01 00 EA.
%E0%01%00%EA|0|||BB67D2922F34DCC9|.%:%|
%E0%01|Truncated 0|||44473DFCAF3645E4|.K|
%E0%01%01%EA|BadVersion 0|||BB67D2922F34DCC9|.%:%|
~ After it stand values, NOP pads and further markers at top level, and markers nowhere else.
%E0%01%00%EA!%05%01%FF%E0%01%00%EA%11|2|5%0Atrue%0A||54B0E1271145C096|.%1%V:7Q9K<KR|
%E0%01%00%EA%B4%E0%01%00%EA|BadDescriptor 5|[||DCAA22609F81DD08|.%F%<V&&&|
~ Each marker sets the symbol table back to the system's.
%E0%01%00%EA%E7%81%83%D4%87%B2%81aq%0A%E0%01%00%EAq%04|2|a%0Aname%0A||F376D127CA5C95A2|.%<%QV&>6)1%W+IM-M;'|
%E0%01%00%EA%E7%81%83%D4%87%B2%81a%E0%01%00%EAq%0A|BadSymbol 16|||94CDD5624916D469|.%D%QV2>5)1FN8Z8I8|
~ Octets that look like another version's marker are none.
%E0%01%00%EA%E0%01%00%EA|0|||222E5384E11CB22C|.%:%8).)|
%E0%01%00%EA%11%E0%02%00%EA|BadVersion 5|true%0A||252E2999FAE75066|.%?%-=777|
~ A VarUInt has seven bits an octet, the greatest first.
%E0%01%00%EAc%C0%0F%D0|1|2000T%0A||B7D7DF4F4C2142F7|.%S%$2UR|
%E0%01%00%EAc%C0%D0%0F|BadVar 4|||452D21F27154DCAD|.%4%I))?|
~ The last octet of a VarUInt, and no other, has its high bit set.
%E0%01%00%EA%8E%83abc|1|"abc"%0A||8D6680807249E8C1|.%-%FW+[R|
%E0%01%00%EA%8E%03abc|Truncated 4|||489A0FECB91D7536|.%,%<WCC7|
~ A VarInt's first octet has the sign in its second bit, and six bits of magnitude.
%E0%01%00%EAS@%C1%01R%C1%0F|2|1d-65%0A1.5%0A||901B46FA862B34F2|.%V%:GPS@8T|
%E0%01%00%EAV%08%00%00%00%80%01|Range 4|||E3B58D91F0FE8FCE|.%O%@<YB2HB|
~ An exponent is at least -2147483647.
%E0%01%00%EAVG%7F%7F%7F%FF%01|1|1d-2147483647%0A||2AB05F91D13B34CD|.%<%:(RA(,C|
%E0%01%00%EAVH%00%00%00%80%01|Range 4|||680290321CFD652B|.%O%:<A7THB|
~ A UInt is a magnitude, the greatest octet first.
%E0%01%00%EA"%01%02|1|258%0A||BBB05C9465A2B175|.%P%<38|
%E0%01%00%EA"%01|Truncated 4|||4AED8E168418DE4E|.%,%@C|
~ An Int is a sign in the first octet's high bit and a magnitude, the greatest octet first.
%E0%01%00%EAS%C1%80%0FS%C1%01%02|2|-1.5%0A25.8%0A||983448B0314C4D32|.%>%QR-OFL$=|
%E0%01%00%EAS%C1%80|Truncated 4|||8E34F649EF977C43|.%,%TCC|
~ A VarUInt has at most nine octets.
%E0%01%00%EA%8E%00%00%00%00%00%00%00%00%81a|1|"a"%0A||A95EFC3A1E276207|.%B%74444444QJ@|
%E0%01%00%EA%8E%00%00%00%00%00%00%00%00%00%81a|BadVar 4|||0A184AA7B6AF5D4E|.%4%7(((((((((NN|
~ A VarInt has at most nine octets.
%E0%01%00%EAZ@%00%00%00%00%00%00%00%81%05|1|0.5%0A||2D5F2D7EF1855ABF|.%H%:M####W>@-O|
%E0%01%00%EA[@%00%00%00%00%00%00%00%00%81%05|BadVar 4|||C8F36117B00CF200|.%4%:8///////Y))|
~ A VarUInt may have leading zeros.
%E0%01%00%EA%D3%00%84%11|1|{name:true}%0A||01B2C1F8C9EE46F3|.%I%K:.O|
%E0%01%00%EA%D3%00%FF%11|BadSymbol 5|{||FF7F4D7C565D80FB|.%N%?@.0|
~ A descriptor has the type in its high four bits and the length in its low four.
%E0%01%00%EA%83abc|1|"abc"%0A||C2B5D17980F11AE4|.%-%@+[R|
%E0%01%00%EA%84abc|Truncated 4|||BAEBA32074E466BB|.%,%@CCC|
~ A length below 14 is the body's.
%E0%01%00%EA%8Dabcdefghijklm|1|"abcdefghijklm"%0A||07512376DAC402D5|.%Z%@#3B*,#++S0$@$|
%E0%01%00%EA%B1%82a|Overrun 5|[||737A571937E5F4F0|.%:%@')|
~ After the length 14 a VarUInt has the body's.
%E0%01%00%EA%8E%8Eabcdefghijklmn|1|"abcdefghijklmn"%0A||A28C6F2B4813AF19|.%;%@</C;QJIK93QK2,N|
%E0%01%00%EA%B3%8E%82a|Overrun 5|[||6C8C97C053B6C7B2|.%:%@BC)|
~ The length 15 is the null of the type.
%E0%01%00%EA%0F%1F/?O_o%7F%8F%9F%AF%BF%CF%DF|14|null%0Anull.bool%0Anull.int%0Anull.int%0Anull.float%0Anull.decimal%0Anull.timestamp%0Anull.symbol%0Anull.string%0Anull.clob%0Anull.blob%0Anull.list%0Anull.sexp%0Anull.struct%0A||9D1507BDCE289E15|.%C%?Y&J*63>OC<UI8|
%E0%01%00%EA%EF|BadDescriptor 4|||63FB5E1FA38F47D2|.%;%<|
%E0%01%00%EA%FF|BadDescriptor 4|||63FB5E1FA38F47D2|.%;%<|
"#;
