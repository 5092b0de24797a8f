//! Of symbols: declarations and imports in binary. Written by tests/vectors/make.py.

pub const ROWS: &str = r#"
~ In binary too the system's symbols have the ids 1 to 9.
%E0%01%00%EAq%01q%02q%03q%04q%05q%06q%07q%08q%09|9|$ion%0A'$ion_1_0'%0A$ion_symbol_table%0Aname%0Aversion%0Aimports%0Asymbols%0Amax_id%0A$ion_shared_symbol_table%0A||E36032ED8DAA8DDD|.%I%I.#ZL[O;$,@.*NNSE0|
%E0%01%00%EAq%0A|BadSymbol 4|||CFC4445DE6AFAA69|.%V%@H|
~ In binary too $0 has unknown text.
%E0%01%00%EAp%D6%80%E4%81%80!%01|2|$0%0A{$0:$0::1}%0A||646F52B4D0D79747|.%V%-HCSTGA>|
%E0%01%00%EA%B3pq%0A|BadSymbol 6|[$0||A19FF379E70CC01C|.%>%3(BW|
~ A declaration in binary is a struct at top level.
%E0%01%00%EA%E7%81%83%D4%87%B2%81aq%0A|1|a%0A||0A7D40CE4D5BC4C3|.%:%QV&>6)1QW0|
%E0%01%00%EA%B8%E7%81%83%D4%87%B2%81aq%0A|BadSymbol 13|[$ion_symbol_table::{symbols:["a"]}]%0A||F551212C58DCD66B|.%A%?WAF2IE[@KS|
%E0%01%00%EA%E5%81%83%B2%81aq%0A|BadSymbol 10|$ion_symbol_table::["a"]%0A||12738DF6DFB64012|.%U%Q[M>5Q$+|
~ A declaration in binary is no null.
%E0%01%00%EA%E7%81%83%D4%87%B2%81a%E3%81%83%DFq%0A|2|$ion_symbol_table::null.struct%0Aa%0A||3F6C79BEC0D0C19B|.%8%QV&>1)1=&D,L$$|
%E0%01%00%EA%E3%81%83%DFq%0A|BadSymbol 8|$ion_symbol_table::null.struct%0A||2110A040B241479A|.%7%Q[=SCC|
~ Its first annotation is $3, or another id of that text.
%E0%01%00%EA%EE%9A%81%83%DE%96%87%BE%93%8E%91$ion_symbol_table%E8%82%8A%84%D4%87%B2%81aq%0A|1|a%0A||F61711E0ACA2096B|.%:%Q2*.[38ZU*+D)E=,J/<R#6%N6BFH=BKT,LE@&DG|
%E0%01%00%EA%E8%82%84%83%D4%87%B2%81aq%0A|BadSymbol 13|name::$ion_symbol_table::{symbols:["a"]}%0A||A6088A88DB51FB85|.%J%Q*:Q[[JM9KT|
~ Its ids in binary are read by the table before it.
%E0%01%00%EA%ED%81%83%DA%87%B8%87symbols%E7%81%83%D4%8A%B2%81aq%0A|1|a%0A||14C9B49A6464065B|.%:%QV7>$7[0000000(@V0>84G4L|
%E0%01%00%EA%EA%81%83%D7%87%B2%81a%84q%0A|BadSymbol 13|||C4D9CAA681C74F7C|.%(%Q23>'&1*=,T|
~ Imports in binary are a list of structs.
%E0%01%00%EA%EC%81%83%D9%86%B7%D6%84%81x%88!%02q%0Aq%0B|2|p%0Aq%0A||10B1DA6282E5779C|.%.%QV2>$Y%WMO[Z*8W?-|
%E0%01%00%EA%E8%81%83%D5%86%D3%84%81xq%0A|BadSymbol 13|||2BC312F2C3EBC910|.%(%QA@>0#&GZ%J|
~ Or they are $3, and the present table is kept.
%E0%01%00%EA%E7%81%83%D4%87%B2%81a%EA%81%83%D7%86q%03%87%B2%81bq%0Aq%0B|2|a%0Ab%0A||3DC5458FDC6DF6E5|.%,%QVA>0)1[&((R'HJF%KPDR[Z|
%E0%01%00%EA%E7%81%83%D4%87%B2%81a%E7%81%83%D4%87%B2%81bq%0B|BadSymbol 20|||27E412F9E27E2C8B|.%Y%QV8>L)1H&DFR<G<V@L|
~ A string in the list of symbols adds its text in binary too.
%E0%01%00%EA%EA%81%83%D7%87%B5%81a%82bcq%0Aq%0B|2|a%0Abc%0A||CE7123B7E4055B08|.%8%Q2U>0&GS#*=HTX0|
%E0%01%00%EA%E6%81%83%D3%87%81aq%0A|BadSymbol 11|||EF9E630EE2C03F34|.%%%QAO>+.M44|
~ Any other element in it adds a slot of unknown text in binary too.
%E0%01%00%EA%EC%81%83%D9%87%B7%8F!%05q%04%81cq%0Aq%0Bq%0Cq%0D|4|$0%0A$0%0A$0%0Ac%0A||C7E701D55A023159|.%V%Q2P>$(1GT,+ZT8$RGSO&C|
%E0%01%00%EA%E7%81%83%D4%87%B2!%05q%0B|BadSymbol 12|||19A94446A0395F49|.%Z%QVF>6.1)W0|
~ Imports come before symbols in binary too.
%E0%01%00%EA%EE%90%81%83%DD%87%B2%81a%86%B7%D6%84%81x%88!%02q%0Aq%0C|2|p%0Aa%0A||8660398409904056|.%F%#2#'[&CG:)&4CH26M;:[Z6|
%E0%01%00%EA%EE%90%81%83%DD%87%B2%81a%86%B7%D6%84%81x%88!%02q%0D|BadSymbol 22|||8896CE920A49848C|.%&%#2#'[;CGHS&4BHCPMV:.|
~ Other fields and types mean nothing in binary too.
%E0%01%00%EA%EE%8E%81%83%DB%84%B2!%01%86q%04%87%B2%81aq%0A|1|a%0A||1FFE1B60BD1F54D2|.%:%Q2#*[P[G@VN4<G<B@L|
%E0%01%00%EA%E9%81%83%D6%87%E4%81%84!%05q%0A|BadSymbol 14|||4AA1EF277B7A024B|.%S%Q24>Z)Y@DB5Z|
~ Annotations inside mean nothing in binary too.
%E0%01%00%EA%ED%81%83%DA%87%E8%81%84%B5%E4%81%85%81aq%0A|1|a%0A||A1AD499559F8FED8|.%:%Q2V>$Y,:DJT.ZWHV|
%E0%01%00%EA%E8%81%83%D5%87%E3%81%8A%B0q%0A|BadSymbol 11|||ED04DDA53F9E4069|.%%%Q20>/)YSZWW|
~ Imports without a name are ignored in binary too.
%E0%01%00%EA%EE%99%81%83%DE%95%86%BE%8E%D0%D2%84%0F%D2%84%80%D6%84%84$ion%87%B2%81aq%0A|1|a%0A||84A2A1F8B7E8DDB7|.%:%;2#.[3LZR/3.>;?K)M68888/*,;BK|
%E0%01%00%EA%EC%81%83%D9%86%B7%D6%84q%04%88!%01q%0A|BadSymbol 17|||96EDFB2BD03D14CC|.%J%QV/>$Y%EM5CZ18[|
~ A version in binary that is no int above 0 is 1.
%E0%01%00%EA%EC%81%83%D9%86%B7%D6%84%81x%851%01q%0B|1|q%0A||ED92F9580C4C4FD3|.%(%QV:>$Y%WM1SZ:8[|
%E0%01%00%EA%EB%81%83%D8%86%B6%D5%84%81x%85 q%0C|BadSymbol 16|||607473EE420074E2|.%D%QVG>5Y%MM1TTI8|
~ A table without max_id comes whole, and is there, in binary too.
%E0%01%00%EA%EC%81%83%D9%86%B7%D6%84%81x%85!%03q%0B|1|s%0A||253B445722373C98|.%U%QVR>$Y%WM1SZ#8[|
%E0%01%00%EA%EC%81%83%D9%86%B7%D6%84%81x%85!%02|BadTable 10|||8BB0C1C5C09A78D3|.%H%QVU>=Y%DM1HZ<|
~ The greatest version stands in for one that is missing in binary too.
%E0%01%00%EA%EE%8F%81%83%DC%86%BA%D9%84%81x%85!%02%88!%02q%0Aq%0B|2|r%0As%0A||B2200DD8E10E6774|.%?%P2*,[L;2A&DQ0M%=T,PEY|
%E0%01%00%EA%EE%8F%81%83%DC%86%BA%D9%84%81z%85!%02%88!%02q%0A|UnknownSymbol 21|||9EA9D25E6A3B3B7F|.%K%P2*+[L;2A&DQ0&%=I,O|
~ A table in binary is cut or filled to max_id.
%E0%01%00%EA%EE%99%81%83%DE%95%86%BE%8E%D6%84%81x%88!%01%D6%84%81y%88!%02%87%B2%81aq%0Aq%0Bq%0D|3|p%0Au%0Aa%0A||40ACF26290397803|.%'%A2#=[3EZ,JTTPX<*)I'QK7:S*,=BK4--?|
%E0%01%00%EA%EC%81%83%D9%86%B7%D6%84%81y%88!%02q%0B|UnknownSymbol 17|||1C1B6B83B6EFFE03|.%F%QV1>$Y%WMOCZ68[|
~ A declaration in binary may use a slot without text.
%E0%01%00%EA%EC%81%83%D9%86%B7%D6%84%81z%88!%01%EA%81%83%D7%8Aq%0A%87%B2%81aq%0A|1|a%0A||69A0D2C31A69C3A0|.%:%QV7>9Y%&M<<Z#*A'O7'?1UA,-M|
%E0%01%00%EA%EC%81%83%D9%86%B7%D6%84%81z%88!%01%D3%8A!%01|UnknownSymbol 18|{||482D573E03B32E31|.%0%QV)>WY%ZM,<Z78IIE|
~ No field that means something is doubled in binary.
%E0%01%00%EA%E9%81%83%D6%84!%01%84!%02|0|||EE545156F7CDDED2|.%:%QVZ>=(F9#*|
%E0%01%00%EA%E9%81%83%D6%87!%01%87!%02|BadTable 11|||8534A31D4B337192|.%F%QVK>=(#9)E|
%E0%01%00%EA%E8%81%83%D5%86%B0%86!%05|BadTable 10|||EB2573A32F1F1E10|.%H%QA%>@9>TT|
%E0%01%00%EA%EC%81%83%D9%86%B7%D6%88!%01%88!%01|BadTable 14|||8E520B8D75645F5E|.%[%QV#>=)19MUH#J|
~ All ids together are at most 2147483647 in binary too.
%E0%01%00%EA%EE%8F%81%83%DC%86%BA%D9%84%81z%88$%7F%FF%FF%F6|0|||554F9C29BBF30008|.%:%P2*3[S;2'&WT7&::-|
%E0%01%00%EA%EE%8F%81%83%DC%86%BA%D9%84%81z%88$%7F%FF%FF%F7|SymbolLimit 11|||DE2A00691AEA15E7|.%9%P2*H[S;2'&OT7L---|
~ A user's slot of unknown text is $0 in binary too.
%E0%01%00%EA%E7%81%83%D4%87%B2!%05q%0A|1|$0%0A||C136CC7252BAC445|.%.%QVF>6.1KW0|
%E0%01%00%EA%E7%81%83%D4%87%B2!%05q%0Aq%0B|BadSymbol 14|$0%0A||74DE58CFB4DFB68B|.%4%QVF>6.1<W*MD|
~ A shared symbol table in a binary stream is a user value.
%E0%01%00%EA%EA%81%89%D7%84%81z%87%B2%81a|1|$ion_shared_symbol_table::{name:"z",symbols:["a"]}%0A||61A770C3C4577861|.%Y%Q[Q>T('M[JF|
%E0%01%00%EA%E6%81%89%D3%84%81z%E9%81%83%D6%86%B4%D3%84%81z|BadTable 17|$ion_shared_symbol_table::{name:"z"}%0A||BCD174741B53C7F9|.%8%Q[2>:?.E8*-,99F7A|
"#;
