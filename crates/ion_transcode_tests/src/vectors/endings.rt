//! Of both encodings: lengths, and values that are cut short. Written by tests/vectors/make.py.

pub const ROWS: &str = r#"
~ A list may say that it has 9223372036854775807 octets, and what there is of it is written.
%E0%01%00%EA%BE%00%00%00%80|1|[]%0A||14FAFC107867CB86|.%X%XBBBK|
%E0%01%00%EA%BE%7F%7F%7F%7F%7F%7F%7F%7F%FF|Truncated 14|[||B70D2ADD0E34F11E|.%X%@GA7P-$3C*|
~ It may not say so in more than nine octets.
%E0%01%00%EA%BE%00%00%00%00%00%00%00%00%80|1|[]%0A||4EA9F1CEF38E688E|.%X%X::::::::T|
%E0%01%00%EA%BE%7F%7F%7F%7F%7F%7F%7F%7F%7F|BadVar 4|||E714250D61E6273F|.%4%FI9S?$QJ1*|
~ A string that says so is refused by its length.
%E0%01%00%EA%8E%00%81a|1|"a"%0A||B280DA4F89E5F15C|.%B%7QU@|
%E0%01%00%EA%8E%7F%7F%7F%7F%7F%7F%7F%7F%FF|ScalarLimit 4|||7423E945145BFB96|.%B%@,STTTTTT'|
~ A NOP pad that says so is cut by the input's end.
%E0%01%00%EA%0E%00%81a|0|||4D61F71BDFB8032C|.%:%7)&4|
%E0%01%00%EA%0E%7F%7F%7F%7F%7F%7F%7F%7F%FF|Truncated 4|||EB89352449539A79|.%,%@@CCCCCCCM|
~ A list's length ends in the container around it.
%E0%01%00%EA%B2%B1%10|1|[[false]]%0A||5AC37ACDE8DAB7B9|.%'%N--|
%E0%01%00%EA%B2%B3%10|Overrun 5|[||BC89E1441451CA40|.%:%C-)|
~ As many as 64 containers may be open.
[[[[[[[[[[[[[[[[[[[[[[[[[[[[[[[[[[[[[[[[[[[[[[[[[[[[[[[[[[[[[[[[]]]]]]]]]]]]]]]]]]]]]]]]]]]]]]]]]]]]]]]]]]]]]]]]]]]]]]]]]]]]]]]]|1|[[[[[[[[[[[[[[[[[[[[[[[[[[[[[[[[[[[[[[[[[[[[[[[[[[[[[[[[[[[[[[[[]]]]]]]]]]]]]]]]]]]]]]]]]]]]]]]]]]]]]]]]]]]]]]]]]]]]]]]]]]]]]]]]%0A|%E0%01%00%EA%BE%F0%BE%EE%BE%EC%BE%EA%BE%E8%BE%E6%BE%E4%BE%E2%BE%E0%BE%DE%BE%DC%BE%DA%BE%D8%BE%D6%BE%D4%BE%D2%BE%D0%BE%CE%BE%CC%BE%CA%BE%C8%BE%C6%BE%C4%BE%C2%BE%C0%BE%BE%BE%BC%BE%BA%BE%B8%BE%B6%BE%B4%BE%B2%BE%B0%BE%AE%BE%AC%BE%AA%BE%A8%BE%A6%BE%A4%BE%A2%BE%A0%BE%9E%BE%9C%BE%9A%BE%98%BE%96%BE%94%BE%92%BE%90%BE%8E%BD%BC%BB%BA%B9%B8%B7%B6%B5%B4%B3%B2%B1%B0|CC9978D17DCCBC9A|.XXD>MU81TF;$(1K?6@<Y?:2+Z=)87+,9H32[G;7;/HQ,AU>DNWELYBJF4X3406V4.RT/B8V#YO8$/-W@.*$I@T'[OR'8K/HA#&Q;-=XW.K<9%YW=4[EAD7@[=A@INDD|
[[[[[[[[[[[[[[[[[[[[[[[[[[[[[[[[[[[[[[[[[[[[[[[[[[[[[[[[[[[[[[[[[|DepthLimit 64|[[[[[[[[[[[[[[[[[[[[[[[[[[[[[[[[[[[[[[[[[[[[[[[[[[[[[[[[[[[[[[[[|%E0%01%00%EA|371F6B67BF04C9A9|.XXD>MU81TF;$(1K?6@<Y?:2+Z=)87+,9H32[G;7;/HQ,AU>DNWELYBJF4X3406V4|
~ What is read of an open value is shown, and in binary nothing of it is written.
a [b,]|2|a%0A[b]%0A|%E0%01%00%EA%EA%81%83%D7%86q%03%87%B2%81aq%0A%EA%81%83%D7%86q%03%87%B2%81b%B2q%0B|BE5E6A9DCD956A92|.RDIH7|
a [b,|Truncated 5|a%0A[b|%E0%01%00%EA%EA%81%83%D7%86q%03%87%B2%81aq%0A|F6FA0A5225492600|.RDIH|
"#;
