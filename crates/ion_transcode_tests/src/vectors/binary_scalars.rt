//! Of the binary encoding: scalars but timestamps, and NOP pads. Written by tests/vectors/make.py.

pub const ROWS: &str = r#"
~ The type 0 with another length than 15 is a pad of so many octets, of any value.
%E0%01%00%EA%00%02%FF%E0%0E%83%E0%01%00%11|1|true%0A||B256F3040DC62B74|.%/%X:&&*RSSSU|
%E0%01%00%EA%03%FF%FF|Truncated 4|||5676B8C755D7551D|.%,%(CC|
%E0%01%00%EA%B2%03%FF|Overrun 5|[||673712C376BF492B|.%:%@-)|
~ A NOP pad may be the whole of a list.
%E0%01%00%EA%B3%02%11%11|1|[]%0A||012487186DF3C40C|.%X%<:XX|
%E0%01%00%EA%B3%03%11%11|Overrun 5|[||C6F25920869E3BEA|.%:%@:))|
~ The bools are 10, 11 and 1F.
%E0%01%00%EA%10%11%1F|3|false%0Atrue%0Anull.bool%0A||27AB9F0041450997|.%+%SFX|
%E0%01%00%EA%12%00%00|BadDescriptor 4|||E8E1BB6FED17FB96|.%;%<NN|
%E0%01%00%EA%1E|BadDescriptor 4|||63FB5E1FA38F47D2|.%;%<|
~ The types 2 and 3 are ints with and without a sign, whose body is a UInt.
%E0%01%00%EA!%051%05"%00%05|3|5%0A-5%0A5%0A||DE4BD7A8B3B0C2F7|.%A%<G'P-IO|
%E0%01%00%EA%B2"%05|Overrun 5|[||0DA5CF2A9152D84D|.%:%@B)|
~ An int has a magnitude below 2 to the power of 128.
%E0%01%00%EA.%90%FF%FF%FF%FF%FF%FF%FF%FF%FF%FF%FF%FF%FF%FF%FF%FF|1|340282366920938463463374607431768211455%0A||2EFC050225C946C8|.%A%2YXSS=Q1PRWK2ATWOU|
%E0%01%00%EA>%91%01%00%00%00%00%00%00%00%00%00%00%00%00%00%00%00%00|Range 4|||2EC3D066990C5350|.%O%)#UBBBBBBBBBBBBBBBB|
~ An int without octets is 0.
%E0%01%00%EA |1|0%0A||0BEC0B978608224A|.%&%<|
%E0%01%00%EA0|BadNumber 4|||E0FC3CF2954253BF|.%,%<|
~ The int 0 has no sign.
%E0%01%00%EA1%01|1|-1%0A||CE35C846F919BE9D|.%A%@W|
%E0%01%00%EA2%00%00|BadNumber 4|||9AC2D59A8FACF252|.%,%<ZW|
~ Of the floats the null alone is read.
%E0%01%00%EAO|1|null.float%0A||5D779B523A003F0C|.%&%<|
%E0%01%00%EA@|Float 4|||12DE2F2C2E0937E9|.%[%<|
%E0%01%00%EAD?%80%00%00|Float 4|||A4F9C689B07DBC7B|.%[%3PPPP|
%E0%01%00%EAN|Float 4|||12DE2F2C2E0937E9|.%[%<|
~ A decimal is a VarInt, the exponent, and an Int, the coefficient, in the rest of the body.
%E0%01%00%EAR%C1%0FS%C3%80%01|2|1.5%0A-0.001%0A||A89FBE70BE9E908C|.%=%Q9RYTZ[|
%E0%01%00%EARA%0F|BadVar 4|||E79F6AB72F7B9786|.%4%:>,|
~ A decimal's coefficient is below 2 to the power of 128.
%E0%01%00%EA^%91%80%7F%FF%FF%FF%FF%FF%FF%FF%FF%FF%FF%FF%FF%FF%FF%FF|1|170141183460469231731687303715884105727.%0A||167F33B22CCE94D9|.%Q%@49'8)3XEH7BEV5>H[L|
%E0%01%00%EA^%92%80%01%00%00%00%00%00%00%00%00%00%00%00%00%00%00%00%00|Range 4|||7716D38D6CF29862|.%O%RYH'BBBBBBBBBBBBBBBB|
~ A decimal's coefficient without octets is 0.
%E0%01%00%EAQ%C2|1|0.00%0A||DE20BFA46D51A1C5|.%/%L:|
%E0%01%00%EAQB|BadVar 4|||C4BF00CA03F082BD|.%4%::|
~ A decimal without a body is 0 with the exponent 0.
%E0%01%00%EAP|1|0.%0A||CC9C42C48A0BCC76|.%C%<|
%E0%01%00%EA%B1^|Overrun 5|[||83AFC23C21AAD961|.%:%@J|
~ A decimal's zero may have a sign.
%E0%01%00%EAR%C1%80|1|-0.0%0A||D302944FEB3637C3|.%H%T8O|
%E0%01%00%EAR%81|Truncated 4|||4AED8E168418DE4E|.%,%@C|
~ A symbol's body is a UInt, its id.
%E0%01%00%EAq%04r%00%09|2|name%0A$ion_shared_symbol_table%0A||843DA81D667B2A6C|.%F%@[:PR|
%E0%01%00%EAq%0A|BadSymbol 4|||CFC4445DE6AFAA69|.%V%@H|
%E0%01%00%EAr%01%04|BadSymbol 4|||2361BC33F43AA58C|.%V%<-Q|
~ A symbol without a body is $0.
%E0%01%00%EAp|1|$0%0A||AFA7C9522A8163B0|.%.%<|
%E0%01%00%EA%B1%7E|Overrun 5|[||83AFC23C21AAD961|.%:%@J|
~ A string is UTF-8.
%E0%01%00%EA%84%C3%A9%0A"|1|"%C3%A9\n\""%0A||EBC1B56298856B47|.%&%.O.7Y|
%E0%01%00%EA%81%C3|BadText 4|||2E2582DEB346BFE3|.%Y%L@|
%E0%01%00%EA%83%ED%A0%80|BadText 4|||61AAE7647066B806|.%Y%FOUO|
%E0%01%00%EA%82%C0%80|BadText 4|||623B3E02F9FBE512|.%Y%1OO|
~ A clob has any octets.
%E0%01%00%EA%93a"%FF|1|{{"a\"\xff"}}%0A||7402F6352CFE943B|.%?%@V2K|
%E0%01%00%EA%94a"%FF|Truncated 4|||BAEBA32074E466BB|.%,%@CCC|
~ A blob has any octets.
%E0%01%00%EA%A3%00%7F%FF|1|{{AH//}}%0A||EB7F37F2852F19E6|.%(%1DQ@|
%E0%01%00%EA%A4%00%7F%FF|Truncated 4|||0D81A1B9EA6437BE|.%,%1CCC|
~ A symbol value with the id 2 is no version marker.
%E0%01%00%EA%E7%81%83%D4%87%B2%81aq%02q%0A|2|'$ion_1_0'%0Aa%0A||62E66EA2A121F050|.%4%QVG>B)14<Y2(|
%E0%01%00%EAr%00%0A|BadSymbol 4|||60CFE767975860C2|.%V%KQH|
"#;
