//! Of catalogues. Written by tests/vectors/make.py.

/// The stream that is run with each catalogue.
pub const STREAM: &str = r#"$ion_symbol_table::{imports:[{name:"x",version:1,max_id:2}]} $10 $11"#;

pub const ROWS: &str = r#"
~ A catalogue has shared symbol tables at top level.
$9::{name:"x",symbols:["p","q"]}|2|p%0Aq%0A|%E0%01%00%EA%EA%81%83%D7%86q%03%87%B2%81pq%0A%EA%81%83%D7%86q%03%87%B2%81qq%0B|F68A526894B0834F|F***M((/28:2<DJU[SZVOQA70F:M<@%N|
5|CatalogEntry 0|||ECD402456518EE81|F|
[$9::{name:"x",symbols:["p","q"]}]|CatalogEntry 0|||2BF434BADE377DF0|F*********************************|
$9::{name:"x",symbols:["p","q"]} 5|CatalogEntry 33|||ED786E1F1366C822|F***M((/28::<DJU[SZVOQA7VF:M1@%N:T|
~ They are structs, and no nulls.
$ion_1_0 $9::{name:"x",symbols:["p","q"]} $ion_1_0|2|p%0Aq%0A|%E0%01%00%EA%EA%81%83%D7%86q%03%87%B2%81pq%0A%EA%81%83%D7%86q%03%87%B2%81qq%0B|D43ACF62D355F58C|F*******#U>>>DJU[SZVZ9A71G:M1-%N(&.I9H=<J5////////|
$9::null.struct|CatalogEntry 0|||309013BE64485598|F***M****PPPPPP|
$9::[]|CatalogEntry 0|||8DA5DECFFC0F7471|F***M*|
~ Their first annotation has the text $ion_shared_symbol_table.
$ion_shared_symbol_table::a::{name:"x",symbols:["p","q"]}|2|p%0Aq%0A|%E0%01%00%EA%EA%81%83%D7%86q%03%87%B2%81pq%0A%EA%81%83%D7%86q%03%87%B2%81qq%0B|1E91889D877A2FCB|F*************************:**-%N(?6I8-H<J1(++E.3-DAB'CH($|
a::$9::{name:"x"}|CatalogEntry 0|||9B4C922D4D3F793D|F**U***/*********|
{name:"x"}|CatalogEntry 0|||352EA7A8F174A9D0|F*********|
~ Their name is a string, not empty, and not $ion.
$9::{symbols:["p","q"],name:'''x'''}|2|p%0Aq%0A|%E0%01%00%EA%EA%81%83%D7%86q%03%87%B2%81pq%0A%EA%81%83%D7%86q%03%87%B2%81qq%0B|C0763056F6BAA7AA|F***M((/28:QUDJ?1SZX0QA71G:M1P*7%%%I|
$9::{name:x}|CatalogEntry 0|||41EC4C9E1078EC05|F***M((/28:*|
$9::{name:""}|CatalogEntry 0|||7965AD37B67CA8D5|F***M((/28:4*|
$9::{name:"$ion"}|CatalogEntry 0|||DC9F5F26C08A42BD|F***M((/28:22224*|
$9::{name:null.string}|CatalogEntry 0|||090ED352449BCED5|F***M((/28:****GGGGGG*|
~ A table has a name.
$9::{name:"x",symbols:["p","q"]} $9::{name:"y"}|2|p%0Aq%0A|%E0%01%00%EA%EA%81%83%D7%86q%03%87%B2%81pq%0A%EA%81%83%D7%86q%03%87%B2%81qq%0B|A841B3B942DACF07|F***M((/28:2<DJU[SZVOQA70F:M<T%N:TBBB.H<J1(+#R.|
$9::{}|CatalogEntry 0|||0707BF072E44B5EB|F***M(|
$9::{symbols:["p"]}|CatalogEntry 0|||62999E72D43539B7|F***M((/28:QUDJ>9SZ|
~ Their version is at most 2147483647, and 1 where it is missing, null, no int or below 1.
$9::{name:"x",version:-1,symbols:["p","q"]}|2|p%0Aq%0A|%E0%01%00%EA%EA%81%83%D7%86q%03%87%B2%81pq%0A%EA%81%83%D7%86q%03%87%B2%81qq%0B|5AB65B81AA7686C6|F***M((/28:2FDJU[SZVOQA$NG:M1-%N(?6W..HC+1(|
$9::{name:"x",version:2147483648}|CatalogEntry 0|||A12F5F866428A603|F***M((/28:<4DJU[SZVOQAQNW1Q[UX)-|
~ Their symbols are a list, with slots of unknown text too; missing or of another type, there are none.
$9::{name:"z",symbols:5} $9::{name:"x",symbols:["p","q"]} $9::{name:"y",symbols:[5,null]}|2|p%0Aq%0A|%E0%01%00%EA%EA%81%83%D7%86q%03%87%B2%81pq%0A%EA%81%83%D7%86q%03%87%B2%81qq%0B|DCE7DB8662946A48|F***M((/28:LSDJU[SZVOQAQGLEEE-%N(?6I8-H<J1(++E.3-DAB'C:($<S$$$EI>&@'K@S8)5&(.SS'AXR3Z$X*:|
$9::{name:"x",symbols:("p" "q")}|UnknownSymbol 61||%E0%01%00%EA|D0AB9426AEC869CC|F***M((/28:2<DJU[SZVOQA7IS:MN@%N|
$9::{name:"x",symbols:["p",5]}|UnknownSymbol 65|p%0A|%E0%01%00%EA%EA%81%83%D7%86q%03%87%B2%81pq%0A|17B0A83E65AA0603|F***M((/28:2<DJU[SZVOQA7XT:MA-|
~ They have no imports.
$9::{name:"x",a:[{imports:1}],symbols:["p","q"]}|2|p%0Aq%0A|%E0%01%00%EA%EA%81%83%D7%86q%03%87%B2%81pq%0A%EA%81%83%D7%86q%03%87%B2%81qq%0B|27C2012E380C4C00|F***M((/28:2CDJU[SZVOQA71G:(1-%N(?6I9.H<Q,(+,R.3|
$9::{name:"x",imports:null}|CatalogEntry 0|||F9C58E5B4E9A2A75|F***M((/28:<4DJU[SZVOQA****|
$9::{imports:[],symbols:["|CatalogEntry 0|||EB2E536E891AEE2E|F***M((/28:QUD************|
~ None of these fields is doubled.
$9::{name:"x",a:1,a:2,symbols:["p","q"]}|2|p%0Aq%0A|%E0%01%00%EA%EA%81%83%D7%86q%03%87%B2%81pq%0A%EA%81%83%D7%86q%03%87%B2%81qq%0B|1172B6B860D852E0|F***M((/28:2HDJU[.ZVO>A71G:M1-%N0@6I[>H<|
$9::{name:"x",name:"x"}|CatalogEntry 0|||60B0FFF3E4A0119C|F***M((/28:<DDJU[SZVA,*|
$9::{version:1,version:a}|CatalogEntry 0|||6A2E043AE29B8AE4|F***M((/28:QUDJU[SZVOQA7*|
$9::{symbols:[],symbols:5}|CatalogEntry 0|||D84AC0FB5C240CE5|F***M((/28:QUDJU[SZVOQA71+|
~ No name and version come twice.
$9::{name:"x",symbols:["p","q"]} $9::{name:"x",version:2}|2|p%0Aq%0A|%E0%01%00%EA%EA%81%83%D7%86q%03%87%B2%81pq%0A%EA%81%83%D7%86q%03%87%B2%81qq%0B|FB541D5946952AF2|F***M((/28:2<DJU[SZVOQA70F:M<T%N:TBBB.H<J1(+#R.3-Z.B'X5(.|
$9::{name:"x",symbols:["p","q"]} $9::{name:"x",symbols:["p","q"]}|CatalogEntry 33|||94DFF6E34490BBE9|F***M((/28:L<DJU[SZVOQA7VF:M1T%N:TBBB.H<J1(+#'.3-Z.B'X5($O(?TA8I>|
$9::{name:"x"} $9::{version:0,name:"x"}|CatalogEntry 15|||ACC0C007B51E790D|F***M((/28:2SD1(CCCVOQA71G:M1V%N(?6I8>H|
~ A fault is found at the value's first byte, and before what follows the field is read.
/**/ $9::{name:"x",symbols:["p","q"]}|2|p%0Aq%0A|%E0%01%00%EA%EA%81%83%D7%86q%03%87%B2%81pq%0A%EA%81%83%D7%86q%03%87%B2%81qq%0B|8C040F6524EB5392|FPUUA3===8:QUDJU-SZVOQA71G:M10AN(Y=I9|
 $9::{name:5,"|CatalogEntry 1|||E22B20BF1AD36430|F$%%%((/28:Q>%|
$9::{version:1 5}|BadToken 15|||FB1FE64FC58F6738|F***M((/28:QUDJU3|
~ A catalogue may have declarations.
$ion_symbol_table::{symbols:["name"]} $9::{$10:"x",symbols:["p","q"]}|2|p%0Aq%0A|%E0%01%00%EA%EA%81%83%D7%86q%03%87%B2%81pq%0A%EA%81%83%D7%86q%03%87%B2%81qq%0B|A9D96F48527C3E4E|F******************VOQA71G:M1-SSSSRI9,@???(++E.3SC.B'X5($:2?T;)I>&5'K|
$ion_symbol_table::{imports:[{name:"x"}]}|BadTable 29|||CD5D8018F7213C7B|F******************VOQA71G:M1-%N(?6I0>HXX|
~ A catalogue may be binary.
%E0%01%00%EA%EE%8C%81%89%D9%84%81x%87%B4%81p%81q|2|p%0Aq%0A|%E0%01%00%EA%EA%81%83%D7%86q%03%87%B2%81pq%0A%EA%81%83%D7%86q%03%87%B2%81qq%0B|53A13152AFD3A8DA|F/Y/T6J;K(/P;XOMSS|
%E0%01%00%EA!%05|CatalogEntry 4|||34E5AFD7034745C0|F/2/,X|
%E0%01%00%EA%E3%81%89%D0|CatalogEntry 4|||73B652F0D4DAC824|F/2/TA7@|
"#;
