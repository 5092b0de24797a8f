//! Of the text encoding: lobs. Written by tests/vectors/make.py.

// `{{'a` is Truncated, and not what the yardstick says: see tests/vectors/text.py.
// `{{'a'` is Truncated, and not what the yardstick says: see tests/vectors/text.py.
// `{{'a'}` is Truncated, and not what the yardstick says: see tests/vectors/text.py.
pub const ROWS: &str = r#"
~ {{ begins a lob.
{{}} {a:{}}|2|{{}}%0A{a:{}}%0A|%E0%01%00%EA%A0%EA%81%83%D7%86q%03%87%B2%81a%D2%8A%D0|640B4F2B898A8896|.Y77F203(>0|
{{a:1}}|BadLob 0||%E0%01%00%EA|3E290974F1F81954|.Y77777|
{{|Truncated 0||%E0%01%00%EA|51612AB8E76545D5|.Y|
{{}|Truncated 0||%E0%01%00%EA|DBC7F163221A0CC5|.YB|
~ A blob is base64 with padding.
{{aGVsbG8=}} {{aGVsbA==}} {{aGVs}}|3|{{aGVsbG8=}}%0A{{aGVsbA==}}%0A{{aGVs}}%0A|%E0%01%00%EA%A5hello%A4hell%A3hel|8070FF13317EE91F|.Y7777777777.0W??????????TPIKKKKGK|
{{aGVsbG8}}|BadLob 0||%E0%01%00%EA|C3756C7F1BD34054|.Y777777777|
{{aGVs=}}|BadLob 0||%E0%01%00%EA|543BC1D52B9CD0CD|.Y77777B7|
{{a===}}|BadLob 0||%E0%01%00%EA|051C969DAEA16F3D|.Y777755|
{{aGVs-_==}}|BadLob 0||%E0%01%00%EA|0EBB4D25D627763D|.Y7777777755|
~ White space may stand anywhere in it.
{{ aG Vs%0AbG8 = }}|1|{{aGVsbG8=}}%0A|%E0%01%00%EA%A5hello|1E265AACC46A1ECD|.Y7777777777777B7|
{{aGVs} }|BadLob 0||%E0%01%00%EA|5F7993A24EBFD824|.Y7777B75|
{{aGVs|Truncated 0||%E0%01%00%EA|27064FB3A20E0CD5|.Y7777|
~ Bits of its last character that belong to no octet are zero.
{{aGVsbG8=}}|1|{{aGVsbG8=}}%0A|%E0%01%00%EA%A5hello|E70E81CBFDCA4264|.Y77777777B7|
{{aGVsbG9=}}|BadLob 0||%E0%01%00%EA|0EBB4D25D627763D|.Y7777777755|
{{aGVsbH==}}|BadLob 0||%E0%01%00%EA|0EBB4D25D627763D|.Y7777777755|
~ A clob is a string, or long strings.
{{"a"}} {{'''a''' '''b'''}}|2|{{"a"}}%0A{{"ab"}}%0A|%E0%01%00%EA%91a%92ab|FA5C9D7E091B5F8C|.Y75$77*4/AAA6AAAAAAA&???AA|
{{"a" "b"}}|BadLob 0||%E0%01%00%EA|44AA6BE27A5F4FD4|.Y777775555|
{{'''a''' "b"}}|BadLob 0||%E0%01%00%EA|E90049BCF2E08BEB|.Y7777$$$775555|
{{'a'}}|BadLob 0||%E0%01%00%EA|3E290974F1F81954|.Y77777|
{{"a"} }|BadLob 0||%E0%01%00%EA|EC741B056812946B|.Y77$775|
~ White space may stand between them.
{{ "a" }} {{%0A'''a'''%09'''b''' }}|2|{{"a"}}%0A{{"ab"}}%0A|%E0%01%00%EA%91a%92ab|466F70844D01825E|.Y7757777DL5XXXX+XXXXXXX?+++XXX|
{{"a"x}}|BadLob 0||%E0%01%00%EA|2DC62B12203B9656|.Y77$755|
{{"a|Truncated 0||%E0%01%00%EA|CA238A0A2249E89B|.YB$|
~ A clob has bytes from 20 to 7F, and the white space of strings.
{{"a%09b%7F"}} {{'''a%0Ab%0D'''}}|2|{{"a\tb\x7f"}}%0A{{"a\nb\n"}}%0A|%E0%01%00%EA%94a%09b%7F%94a%0Ab%0A|DBC50C3C97F1C636|.Y7&-32777JY)555T4OSGGG55|
{{"%C3%A9"}}|BadLob 0||%E0%01%00%EA|EF5E5E833BFF0425|.Y775555|
{{"%01"}}|BadLob 0||%E0%01%00%EA|884F0C739883F916|.Y7-555|
{{"a%0Ab"}}|BadLob 0||%E0%01%00%EA|5E5C294EB8F1BECE|.Y77,5555|
~ \x in a clob is an octet.
{{"\xff\x00"}}|1|{{"\xff\x00"}}%0A|%E0%01%00%EA%92%FF%00|C96C2B4FF5BAAC32|.Y7&777I777$77|
{{"\xf"}}|BadLob 0||%E0%01%00%EA|064B1EC3181478B1|.Y7,77755|
{{"\xfg"}}|BadLob 0||%E0%01%00%EA|ADD08D018F0BDC87|.Y7C777555|
~ A clob has no \u and no \U.
{{"\n\0\/"}}|1|{{"\n\x00/"}}%0A|%E0%01%00%EA%93%0A%00/|4C3CFF0EC38913DE|.Y7N7@7Q7$77|
{{"\u0041"}}|BadLob 0||%E0%01%00%EA|E5895DBB321444C7|.Y7.75555555|
{{"\U00000041"}}|BadLob 0||%E0%01%00%EA|B0EFD98028B123D8|.Y7&755555555555|
~ There are no comments in a lob.
{{//8=}}|1|{{//8=}}%0A|%E0%01%00%EA%A2%FF%FF|DD6FCB43D6443B64|.Y7777B7|
{{"a"/**/}}|BadLob 0||%E0%01%00%EA|3B15DE2AB4B1844A|.Y77$755555|
{{aGVs//}}x|BadLob 0||%E0%01%00%EA|68EFB3DA5BA69C99|.Y777777775|
"#;
