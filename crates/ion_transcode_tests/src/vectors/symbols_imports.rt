//! Of symbols: imports in text. Written by tests/vectors/make.py.

pub const ROWS: &str = r#"
~ An import with no name that is a string, or an empty one, or $ion, is ignored.
$ion_symbol_table::{imports:[{},{name:x,max_id:9},{name:null.string},{name:""},{name:"$ion"}],symbols:["a"]} $10|1|a%0A|%E0%01%00%EA%EA%81%83%D7%86q%03%87%B2%81aq%0A|4677C4085D8B2CFF|.$0*E@H1HKQ[R,@AIETS6<5.(T5<,Y;TMU9(#<W+O<*LY0FEP[23@KOQVU@.FOOOOOO9G21O3>'F%/:<,5#LZ:BBBB@>1(LM-9-5S[:5)6&*M1:K|
$ion_symbol_table::{imports:[{name:x,max_id:1}]} $10|BadSymbol 49||%E0%01%00%EA|EF1EDE7932DF05D1|.$0*E@H1HKQ[R,@AIETS6<5.(T5<,Y;TMU9(#<W+O<*LY$FE;%GK|
~ A version that is missing, null, no int or below 1 is 1.
$ion_symbol_table::{imports:[{name:"x"},{name:"x",version:null},{name:"x",version:-2},{name:"x",version:a}]} $10 $12 $14 $17|4|p%0Ap%0Ap%0Aq%0A|%E0%01%00%EA%EA%81%83%D7%86q%03%87%B2%81pq%0Aq%0Aq%0A%EA%81%83%D7%86q%03%87%B2%81qq%0B|A3EEE9FF98C03D40|.$0*E@H1HKQ[R,@AIETS6<5.(T5<,Y;TMU9(;%W+O<*LY0F?-[23@KOQVU@.F1@+&@69G216:>'F*/:<,5#,O:)-KMM>1&$M-9-5S[:59X&*M1:K?+EC:*#,UAI3|
$ion_symbol_table::{imports:[{name:"x",version:0}]} $12|BadSymbol 52||%E0%01%00%EA|D4202E48B49B602E|.$0*E@H1HKQ[R,@AIETS6<5.(T5<,Y;TMU9(;7W+O<*LY0FEP[2MKM;|
~ Where max_id is missing, null, no int or negative, the table of that version comes whole.
$ion_symbol_table::{imports:[{name:"x",version:3},{name:"x",max_id:null.int},{name:"y",max_id:-1}]} $10 $14 $15|3|r%0Aq%0Au%0A|%E0%01%00%EA%EA%81%83%D7%86q%03%87%B2%81rq%0A%EA%81%83%D7%86q%03%87%B2%81qq%0B%EA%81%83%D7%86q%03%87%B2%81uq%0C|7863EA30D2B25C37|.$0*E@H1HKQ[R,@AIETS6<5.(T5<,Y;TMU9(;+W+O<*LY0FEP[23@KOQVC[.F1@+&@69G21O000F*/:<,5#L,Q)-KMM>1(LQ,9-Q3[%DO#@(0/4|
$ion_symbol_table::{imports:[{name:"x",version:3}]} $12|UnknownSymbol 52||%E0%01%00%EA|D4202E48B49B602E|.$0*E@H1HKQ[R,@AIETS6<5.(T5<,Y;TMU9(;7W+O<*LY0FEP[2MKM;|
~ It is in the catalogue then.
$ion_symbol_table::{imports:[{name:"y",version:1}]} $10|1|u%0A|%E0%01%00%EA%EA%81%83%D7%86q%03%87%B2%81uq%0A|D4202E48B49B602E|.$0*E@H1HKQ[R,@AIETS6<5.(T5<,Y;TMU9(;7W+O<*LY0FEP[2MKM;|
$ion_symbol_table::{imports:[{name:"x",version:2}]}|BadTable 29||%E0%01%00%EA|00580123E9778AAB|.$0*E@H1HKQ[R,@AIETS6<5.(T5<,Y;TMU9(;7W+O<*LY0FEP&&|
$ion_symbol_table::{imports:[{name:"z"}]}|BadTable 29||%E0%01%00%EA|0B427DC9E879F2EB|.$0*E@H1HKQ[R,@AIETS6<5.(T5<,Y;TMU9(;7W&&|
~ With max_id the greatest version stands in for one that is missing.
$ion_symbol_table::{imports:[{name:"x",version:2,max_id:2}]} $10 $11|2|r%0As%0A|%E0%01%00%EA%EA%81%83%D7%86q%03%87%B2%81rq%0A%EA%81%83%D7%86q%03%87%B2%81sq%0B|C0F8B34AF0ED29BD|.$0*E@H1HKQ[R,@AIETS6<5.(T5<,Y;TMU9(I7W+O<*LY0FEP[23@KOQVF@.Y,R:6=DK|
$ion_symbol_table::{imports:[{name:"x",version:1,max_id:3}]} $12|UnknownSymbol 61||%E0%01%00%EA|E73FB9F1F200EC12|.$0*E@H1HKQ[R,@AIETS6<5.(T5<,Y;TMU9(I7W+O<*LY0FEP[23@KOQVF@.Y,R:|
~ The table is cut to max_id.
$ion_symbol_table::{imports:[{name:"x",max_id:1}],symbols:["a"]} $10 $11|2|p%0Aa%0A|%E0%01%00%EA%EA%81%83%D7%86q%03%87%B2%81pq%0A%EA%81%83%D7%86q%03%87%B2%81aq%0B|F2D8088E35315434|.$0*E@H1HKQ[R,@AIETS6<5.(T5<,Y;TMU9(=6W+O<*LY0FFD[23@KOQVU@.BC@+35.L;IC+|
$ion_symbol_table::{imports:[{name:"x",max_id:1}]} $11|BadSymbol 51||%E0%01%00%EA|63CE09DA24A9C8C2|.$0*E@H1HKQ[R,@AIETS6<5.(T5<,Y;TMU9(Z7W+O<*LY0FFD[MM[?|
~ Or it is filled with slots without text.
$ion_symbol_table::{imports:[{name:"y",max_id:3}],symbols:["a"]} $10 $13|2|u%0Aa%0A|%E0%01%00%EA%EA%81%83%D7%86q%03%87%B2%81uq%0A%EA%81%83%D7%86q%03%87%B2%81aq%0B|64884319DA0FB9EE|.$0*E@H1HKQ[R,@AIETS6<5.(T5<,Y;TMU9(=6W+O<*LY0FFD[23@KOQVU@.BC@+35.L[-MF|
$ion_symbol_table::{imports:[{name:"y",max_id:3}]} $12|UnknownSymbol 51||%E0%01%00%EA|D05FF5FBFB5F37C7|.$0*E@H1HKQ[R,@AIETS6<5.(T5<,Y;TMU9(M7W+O<*LY0FFD[MM[?|
~ Without any version, all slots are without text.
$ion_symbol_table::{imports:[{name:"z",max_id:3}],symbols:["a"]} $13|1|a%0A|%E0%01%00%EA%EA%81%83%D7%86q%03%87%B2%81aq%0A|31875F98C6D25331|.$0*E@H1HKQ[R,@AIETS6<5.(T5<,Y;TMU9(K6W+O<*LY0FFD[23@KOQVU@.PC@+35.L|
$ion_symbol_table::{imports:[{name:"z",max_id:3}]} $10|UnknownSymbol 51||%E0%01%00%EA|D05FF5FBFB5F37C7|.$0*E@H1HKQ[R,@AIETS6<5.(T5<,Y;TMU9(M7W+O<*LY0FFD[MM[?|
~ A user value may not use such a slot, and a declaration may.
$ion_symbol_table::{imports:[{name:"z",max_id:1}]} $ion_symbol_table::{$10:$10::[$10],symbols:["a"]} $10|1|a%0A|%E0%01%00%EA%EA%81%83%D7%86q%03%87%B2%81aq%0A|FD7A1D200761001A|.$0*E@H1HKQ[R,@AIETS6<5.(T5<,Y;TMU9(K/W+O<*LY0FFD[MM[$Z%+:H4IR%WHN;I4.1O3>'F*/:S,5#LZ:)-KMM>1(LM,--53'IO|
$ion_symbol_table::{imports:[{name:"z",max_id:1}]} {$10:1}|UnknownSymbol 52|{|%E0%01%00%EA|F0025F440510B06C|.$0*E@H1HKQ[R,@AIETS6<5.(T5<,Y;TMU9(R7W+O<*LY0FFD[MMQ&RRK:|
$ion_symbol_table::{imports:[{name:"z",max_id:1}]} $10::a|UnknownSymbol 51||%E0%01%00%EA|D5D62511D14942A2|.$0*E@H1HKQ[R,@AIETS6<5.(T5<,Y;TMU9(M7W+O<*LY0FFD[MM[?++V|
~ An import may not have a name, version or max_id twice.
$ion_symbol_table::{imports:[{name:"x",a:1,a:2}]} $10|1|p%0A|%E0%01%00%EA%EA%81%83%D7%86q%03%87%B2%81pq%0A|C6AA00558E338895|.$0*E@H1HKQ[R,@AIETS6<5.(T5<,Y;TMU9(;7W+O<BLY0)ED%MY$|
$ion_symbol_table::{imports:[{name:1,name:2}]}|BadTable 37||%E0%01%00%EA|F6BCCED9B5F3C80D|.$0*E@H1HKQ[R,@AIETS6<5.(T5<,Y;TMU9(8<W+O<*@FF|
$ion_symbol_table::{imports:[{version:1,version:a}]}|BadTable 40||%E0%01%00%EA|CEAFBBA268005165|.$0*E@H1HKQ[R,@AIETS6<5.(T5<,Y;TMU9(#<WWO<*LY0FED000|
$ion_symbol_table::{imports:[{max_id:1,max_id:1}]}|BadTable 39||%E0%01%00%EA|E6A960DA30AB9ED7|.$0*E@H1HKQ[R,@AIETS6<5.(T5<,Y;TMU9(#<>+O<*LY0F)<<|
~ All ids together are at most 2147483647.
$ion_symbol_table::{imports:[{name:"z",max_id:2147483638}]}|0||%E0%01%00%EA|FE1DFC54E7E394B3|.$0*E@H1HKQ[R,@AIETS6<5.(T5<,Y;TMU9(47W+O<*LY0FF@U@431KOGU@|
$ion_symbol_table::{imports:[{name:"z",max_id:2147483639}]}|SymbolLimit 29||%E0%01%00%EA|7BF067BDC5B3950B|.$0*E@H1HKQ[R,@AIETS6<5.(T5<,Y;TMU9(Y7W+O<*LY0FF@U@431KOGLL|
$ion_symbol_table::{imports:[{name:"z",max_id:2147483638}],symbols:[5]}|SymbolLimit 68||%E0%01%00%EA|FCF0537E8F8F6B21|.$0*E@H1HKQ[R,@AIETS6<5.(T5<,Y;TMU9(K7W+O<*LY0FF@U@431KOGU@.F1@+&@69G+=|
"#;
