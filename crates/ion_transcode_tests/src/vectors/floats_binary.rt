//! Of floats in binary. Written by tests/vectors/make.py.

pub const ROWS: &str = r#"
~ A float has no octets, four or eight.
%E0%01%00%EA@D?%C0%00%00H?%B9%99%99%99%99%99%9A|3|0e0%0A1.5e0%0A1e-1%0A||BC27D4BE4301E8F1|.%?%UPK4DJ6O*F>'0./|
%E0%01%00%EAA%00|BadDescriptor 4|||9F766D3B4188582E|.%;%<)|
%E0%01%00%EAB<%00|BadDescriptor 4|||7B05CFC01C26B221|.%;%@))|
%E0%01%00%EAE%00%00%00%00%00|BadDescriptor 4|||8E8137198BDFCF7E|.%;%<)))))|
%E0%01%00%EAI%00%00%00%00%00%00%00%00%00|BadDescriptor 4|||4A2496DF91265A0E|.%;%<)))))))))|
%E0%01%00%EAD?%C0%00|Truncated 4|||42233ED01D57DB19|.%,%1CCC|
~ Its length may be a VarUInt.
%E0%01%00%EAN%80N%84?%C0%00%00|2|0e0%0A1.5e0%0A||58AB674F8645B849|.%D%$3JWC3?Z|
%E0%01%00%EAN%81%00|BadDescriptor 4|||84EA4F06200845A2|.%;%K4)|
%E0%01%00%EAN%84?%C0|Truncated 4|||16A71583B40D2889|.%,%@%CC|
%E0%01%00%EAN|Truncated 4|||461886A3C8341A87|.%,%<|
~ A zero may have a sign.
%E0%01%00%EAD%80%00%00%00H%80%00%00%00%00%00%00%00|2|-0e0%0A-0e0%0A||D4D8B6FBB40E182A|.%8%';E2$86G9*J-,S|
%E0%01%00%EAA%80|BadDescriptor 4|||4C1A0434A011500B|.%;%X)|
~ Whatever is no number is nan.
%E0%01%00%EAD%7F%C0%00%00D%FF%80%00%01H%7F%F0%00%00%00%00%00%01|3|nan%0Anan%0Anan%0A||C39C46661BC4146D|.%@%NCM(('0RJZJD7VVVVVY|
%E0%01%00%EAC%7F%C0%00|BadDescriptor 4|||6ABDBABBAC9D00A6|.%;%Q)))|
~ The others without end are +inf and -inf.
%E0%01%00%EAD%7F%80%00%00H%FF%F0%00%00%00%00%00%00|2|+inf%0A-inf%0A||33E0A4620365594D|.%S%/U6DD+Y>------|
%E0%01%00%EAF%7F%F0%00%00%00%00|BadDescriptor 4|||A734C840F0EE86BE|.%;%X))))))|
~ Floats of four octets are those of eight with the same value.
%E0%01%00%EAD%00%00%00%01H6%A0%00%00%00%00%00%00|2|1.401298464324817e-45%0A1.401298464324817e-45%0A||D509B2C4A458A1E2|.%:%V-#1+J>:YXG,KU|
%E0%01%00%EAG6%A0%00%00%00%00%00|BadDescriptor 4|||14724FC2C936FD14|.%;%V)))))))|
~ Floats stand where other values stand.
%E0%01%00%EA%E7%81%84D?%C0%00%00%B2@O%D2%84@|3|name::1.5e0%0A[0e0,null.float]%0A{name:0e0}%0A||0933343A27E436AD|.%)%QA1>I?H2W4%+7'|
%E0%01%00%EA%E7%81%84D?%C0%00|Truncated 7|||D2E84F776D838ECC|.%E%QAD>EEE|
%E0%01%00%EA%B1D?%C0%00%00|Overrun 5|[||F3BE8D2F2B4AE39C|.%:%N1))))|
%E0%01%00%EA%E4%81%84A%00|BadDescriptor 7|||C7C8D439A4EAB4B1|.%T%Q[&>*|
"#;
