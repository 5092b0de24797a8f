//! Of symbols: declarations in text. Written by tests/vectors/make.py.

/// The catalogue of each run.
pub const CATALOGUE: &str =
    r#"$9::{name:"x",version:1,symbols:["p","q"]} $9::{name:"x",version:3,symbols:["r","s",null]} $9::{name:"y",symbols:["u"]}"#;

pub const ROWS: &str = r#"
~ The system's symbols have the ids 1 to 9.
$1 $2 $3 $4 $5 $6 $7 $8 $9|9|$ion%0A'$ion_1_0'%0A$ion_symbol_table%0Aname%0Aversion%0Aimports%0Asymbols%0Amax_id%0A$ion_shared_symbol_table%0A|%E0%01%00%EAq%01q%02q%03q%04q%05q%06q%07q%08q%09|1AA6C679E8215A45|.$:VZ56ZF3U-(%QD(RN:&NROFU|
$10|BadSymbol 0||%E0%01%00%EA|BD576FE2E35FABCC|.$:|
~ $0 has unknown text.
$0 {$0:$0::1}|2|$0%0A{$0:$0::1}%0A|%E0%01%00%EAp%D6%80%E4%81%80!%01|2CAF859D902A4612|.$RC5@GDC-&:#|
[$0,$10]|BadSymbol 4|[$0|%E0%01%00%EA|55C84364A5175F49|.X>48ZA,|
~ A declaration is a struct at top level.
$ion_symbol_table::{symbols:["a"]} $10|1|a%0A|%E0%01%00%EA%EA%81%83%D7%86q%03%87%B2%81aq%0A|F9E310041AEE5B7E|.$0*E@H1HKQ[R,@AIETS6<5.(T5<,Y81MU48E.|
[$ion_symbol_table::{symbols:["a"]}] $10|BadSymbol 37|[$ion_symbol_table::{symbols:["a"]}]%0A|%E0%01%00%EA%B8%E7%81%83%D4%87%B2%81a|7AA00C8879593BA6|.X>Z1R?Z.SM8TZ*VQRF;5%E+SOA;RQ/<++RG?.DD|
$ion_symbol_table::["a"] $10|BadSymbol 25|$ion_symbol_table::["a"]%0A|%E0%01%00%EA%E5%81%83%B2%81a|700C4E2EB3B5C2C5|.$0*E@H1HKQ[R,@AIETSCZ%N.7&M|
~ It is no null.
$ion_symbol_table::{symbols:["a"]} $ion_symbol_table::null.struct $10|2|$ion_symbol_table::null.struct%0Aa%0A|%E0%01%00%EA%E3%81%83%DF%EA%81%83%D7%86q%03%87%B2%81aq%0A|8D10EB4336F4C39E|.$0*E@H1HKQ[R,@AIETS6<5.(T5<,Y01MU48E'$9,>@JC7=,N3.6[HOO+U.------$++J|
$ion_symbol_table::null.struct $10|BadSymbol 31|$ion_symbol_table::null.struct%0A|%E0%01%00%EA%E3%81%83%DF|D57D9B9F20D1AF22|.$0*E@H1HKQ[R,@AIETSV;@YGGGGGG$HY:|
~ Its first annotation has the text $ion_symbol_table.
'$ion_symbol_table'::b::{symbols:["a"]} $10|1|a%0A|%E0%01%00%EA%EA%81%83%D7%86q%03%87%B2%81aq%0A|21DBB1B503817511|.8XHJ1K=&L6DJ(&3S*@*<<;#(T5<,Y;TMU9#6<WJW=+|
b::$ion_symbol_table::{symbols:["a"]} $10|BadSymbol 38|b::$ion_symbol_table::{symbols:["a"]}%0A|%E0%01%00%EA%EA%81%83%D7%86q%03%87%B2%81b%E8%82%8A%83%D4%87%B2%81a|AC2760831AF4E421|.V(0)20DE0550M2A9@T+?55%HZAB;3QZG&4+)TZ6R|
~ Its ids are read by the table before it.
$ion_symbol_table::{symbols:["symbols"]} $ion_symbol_table::{$10:["a"]} $10|1|a%0A|%E0%01%00%EA%EA%81%83%D7%86q%03%87%B2%81aq%0A|B4615141CD4A94A1|.$0*E@H1HKQ[R,@AIETS6<5.(T5<,Y8888888?W+WB$)[IZUO:2J7G=HFOXEF1@+&@64'21J&.5|
$ion_symbol_table::{symbols:["a"],b:$10}|BadSymbol 36||%E0%01%00%EA|99064D910B9DE10A|.$0*E@H1HKQ[R,@AIETS6<5.(T5<,YI1MU9(#<W5|
~ Imports are a list of structs.
$ion_symbol_table::{imports:[{name:"x",max_id:2}]} $10 $11|2|p%0Aq%0A|%E0%01%00%EA%EA%81%83%D7%86q%03%87%B2%81pq%0A%EA%81%83%D7%86q%03%87%B2%81qq%0B|C1B0C3570520D969|.$0*E@H1HKQ[R,@AIETS6<5.(T5<,Y;TMU9(M7W+O<*LY0FFD[MM[?.>7X|
$ion_symbol_table::{imports:({name:"x"})} $10|BadSymbol 42||%E0%01%00%EA|09D78443D69D59C9|.$0*E@H1HKQ[R,@AIETS6<5.(T5<,Y;TMU9('7W+OB>B@|
~ Or they are the symbol $ion_symbol_table, and the present table is kept.
$ion_symbol_table::{symbols:["a"]} $ion_symbol_table::{imports:$ion_symbol_table,symbols:["b"]} $10 $11|2|a%0Ab%0A|%E0%01%00%EA%EA%81%83%D7%86q%03%87%B2%81aq%0A%EA%81%83%D7%86q%03%87%B2%81bq%0B|A81B9422BE5C5F51|.$0*E@H1HKQ[R,@AIETS6<5.(T5<,YF%MU48E'$9,>@JC7=,N3.6[HOQVU@.F1@+&@69G21O3>'F*/:<,5#LZ:)-KMMTB(L;/)281;Q|
$ion_symbol_table::{symbols:["a"]} $ion_symbol_table::{symbols:["b"]} $11|BadSymbol 70||%E0%01%00%EA|95C72509CB54CF7C|.$0*E@H1HKQ[R,@AIETS6<5.(T5<,Y*HMU48E'$9,>@JC7=,N3.6[HOQVU@.F1@+&319G/TC;|
$ion_symbol_table::{symbols:["a"]} $ion_symbol_table::{imports:"$ion_symbol_table"} $10|BadSymbol 84||%E0%01%00%EA|8ABA6AF86AEEE29D|.$0*E@H1HKQ[R,@AIETS6<5.(T5<,YU,MU48E'$9,>@JC7=,N3.6[HOQVU@.F1@+=================4#2:X5|
~ The field symbols is a list, in which a string adds its text.
$ion_symbol_table::{symbols:["a",'''b''' '''c''']} $10 $11|2|a%0Abc%0A|%E0%01%00%EA%EA%81%83%D7%86q%03%87%B2%81aq%0A%EB%81%83%D8%86q%03%87%B3%82bcq%0B|7003D64DA886827E|.$0*E@H1HKQ[R,@AIETS6<5.(T5<,YD1MU>((===O<--(JJJD[MM[?R*B;|
$ion_symbol_table::{symbols:"a"} $10|BadSymbol 33||%E0%01%00%EA|A77BA75080741B75|.$0*E@H1HKQ[R,@AIETS6<5.(T5<,27TH/>'|
~ Any other element there adds a slot of unknown text.
$ion_symbol_table::{symbols:[null.string,5,b,"c"]} $10 $11 $12 $13|4|$0%0A$0%0A$0%0Ac%0A|%E0%01%00%EAppp%EA%81%83%D7%86q%03%87%B2%81cq%0A|E339A2FF8219477F|.$0*E@H1HKQ[R,@AIETS6<5.(T5<,Y;TMUJJJJJJO<BLY0N.D[MM[?FS?I>6@BU*AC|
$ion_symbol_table::{symbols:[5]} $11|BadSymbol 33||%E0%01%00%EA|6350C43F37200840|.$0*E@H1HKQ[R,@AIETS6<5.(T5<,Y6TH/>'|
~ Imports come before symbols, whichever field is first.
$ion_symbol_table::{symbols:["a"],imports:[{name:"x",max_id:2}]} $10 $12|2|p%0Aa%0A|%E0%01%00%EA%EA%81%83%D7%86q%03%87%B2%81pq%0A%EA%81%83%D7%86q%03%87%B2%81aq%0B|0FB3C33A00293102|.$0*E@H1HKQ[R,@AIETS6<5.(T5<,YT&MU9(#<W+O<*LY0FED[N>@KOQVU@.F.@+35.L;IC+|
$ion_symbol_table::{symbols:["a"],imports:[{name:"x",max_id:2}]} $13|BadSymbol 65||%E0%01%00%EA|64D2081A51328F2D|.$0*E@H1HKQ[R,@AIETS6<5.(T5<,YF&MU9(#<W+O<*LY0FED[0>@KOQVU@.F.@+35.L|
~ Imports come in their order.
$ion_symbol_table::{imports:[{name:"y",max_id:1},{name:"x",max_id:1}]} $10 $11|2|u%0Ap%0A|%E0%01%00%EA%EA%81%83%D7%86q%03%87%B2%81uq%0A%EA%81%83%D7%86q%03%87%B2%81pq%0B|767E3B3A2CD249F2|.$0*E@H1HKQ[R,@AIETS6<5.(T5<,Y;TMU9(0UW+O<*LY0FFD[23@KOQCF@.F1@+&@6SG2TJ9=AM<<|
$ion_symbol_table::{imports:[{name:"y",max_id:0}]} $10|BadSymbol 51||%E0%01%00%EA|63CE09DA24A9C8C2|.$0*E@H1HKQ[R,@AIETS6<5.(T5<,Y;TMU9(Z7W+O<*LY0FFD[MM[?|
~ Other fields mean nothing.
$ion_symbol_table::{name:[1],symbols:["a"],b:{imports:1}} $10|1|a%0A|%E0%01%00%EA%EA%81%83%D7%86q%03%87%B2%81aq%0A|02F1C65745A9B2B5|.$0*E@H1HKQ[R,@AIETS6<5.(T5U,Y;TMU9(#<W$=<*LY0FED[23@KOJV?;.<|
$ion_symbol_table::{Symbols:["a"]} $10|BadSymbol 35||%E0%01%00%EA|E518B1EE010D3319|.$0*E@H1HKQ[R,@AIETS6<5.(T5<,YK1MU48E.|
~ Nor do these fields with other types.
$ion_symbol_table::{imports:a,symbols:["a"]} $10|1|a%0A|%E0%01%00%EA%EA%81%83%D7%86q%03%87%B2%81aq%0A|1473CC489141D5B5|.$0*E@H1HKQ[R,@AIETS6<5.(T5<,Y;TMU9(#<W+K8*LJKUW|
$ion_symbol_table::{symbols:("a")} $10|BadSymbol 35||%E0%01%00%EA|E518B1EE010D3319|.$0*E@H1HKQ[R,@AIETS6<5.(T5<,YK1MU48E.|
~ Nor do elements of imports that are no structs.
$ion_symbol_table::{imports:[5,[{name:"x"}],null.struct],symbols:["a"]} $10|1|a%0A|%E0%01%00%EA%EA%81%83%D7%86q%03%87%B2%81aq%0A|61E059FD1F4426C6|.$0*E@H1HKQ[R,@AIETS6<5.(T5<,Y6TMU9(#<W77<*LY0FED111111QVU@.F1@+&@64'21J&.5|
$ion_symbol_table::{imports:[5,"x"]} $10|BadSymbol 37||%E0%01%00%EA|4D770E6B0D5A9AF5|.$0*E@H1HKQ[R,@AIETS6<5.(T5<,Y6T/39(O:$9|
~ Nor do annotations inside.
$ion_symbol_table::{imports:a::[b::{name:c::"y",max_id:d::1}],symbols:e::[f::"a"]} $10 $11|2|u%0Aa%0A|%E0%01%00%EA%EA%81%83%D7%86q%03%87%B2%81uq%0A%EA%81%83%D7%86q%03%87%B2%81aq%0B|21F6C68F876F24A4|.$0*E@H1HKQ[R,@AIETS6<5.(T5<,YJTMUW(#<W+O<*XY$UED[23@KOQVO@%F1@+&@69G21ON>'FF/<Z,5R2YC.UGV|
$ion_symbol_table::{symbols:$10::[]}|BadSymbol 28||%E0%01%00%EA|A6000B64BEE17A66|.$0*E@H1HKQ[R,@AIETS6<5.(T5<,Y;OOUOO|
~ An id above the table is refused, in a declaration too.
$ion_symbol_table::{symbols:["a"]} $10::$10|1|a::a%0A|%E0%01%00%EA%EA%81%83%D7%86q%03%87%B2%81a%E4%81%8Aq%0A|D3090FB80344F9AD|.$0*E@H1HKQ[R,@AIETS6<5.(T5<,Y01MU48E./FO[K|
$ion_symbol_table::{b:[$10]}|BadSymbol 23||%E0%01%00%EA|F9744F2FAE24F80B|.$0*E@H1HKQ[R,@AIETS6<5.(TKK|
$ion_symbol_table::{$10:1}|BadSymbol 20||%E0%01%00%EA|8C103B4E7B7F97F8|.$0*E@H1HKQ[R,@AIETS6<5.(:|
~ A user's slot of unknown text is $0.
$ion_symbol_table::{symbols:[null]} $10 {$10:$10::1}|2|$0%0A{$0:$0::1}%0A|%E0%01%00%EAp%D6%80%E4%81%80!%01|182373464A23301A|.$0*E@H1HKQ[R,@AIETS6<5.(T5<,Y;TMU98OV,J1&R2+2*,;Q*#|
$ion_symbol_table::{symbols:[null]} $10 $11|BadSymbol 40|$0%0A|%E0%01%00%EAp|DCC3F8A0C261D66B|.$0*E@H1HKQ[R,@AIETS6<5.(T5<,Y;TMU98OV,J1<<|
~ A shared symbol table in a stream is a user value.
$9::{name:"z",version:1,symbols:["a"]}|1|$ion_shared_symbol_table::{name:"z",version:1,symbols:["a"]}%0A|%E0%01%00%EA%ED%81%89%DA%84%81z%85!%01%87%B2%81a|EEDCC28A605AD433|.$.+A0VGG%8B-N0$X?TN$,MS%ZN-7&3W6@#$.4|
$9::{name:"z",version:1} $ion_symbol_table::{imports:[{name:"z"}]}|BadTable 54|$ion_shared_symbol_table::{name:"z",version:1}%0A|%E0%01%00%EA%E9%81%89%D6%84%81z%85!%01|4CDFABE9CB4A3155|.$.+A0VGG%8Q#N0$X?TN$,MSM>Z9F2X,F,$%.U,21U#3[&-3FY/O&J?JS-8N[X=M<<|
~ A declaration may not have imports or symbols twice.
$ion_symbol_table::{imports:5,symbols:5,name:1,name:2}|0||%E0%01%00%EA|EE6807EC71BE0E88|.$0*E@H1HKQ[R,@AIETS6<5.(T5<,2;TMU9(#<WWO<*LY0)ED[23@7|
$ion_symbol_table::{symbols:1,symbols:2}|BadTable 30||%E0%01%00%EA|96DECD43512B1054|.$0*E@H1HKQ[R,@AIETS6<5.(T5<,2;TMU9(#<WX|
$ion_symbol_table::{imports:[],imports:5}|BadTable 31||%E0%01%00%EA|948E3196417CE5EC|.$0*E@H1HKQ[R,@AIETS6<5.(T5<,Y;TMU9(#<W+B|
"#;
