//! Of the text encoding: symbols, keywords, operators and version markers. Written by tests/vectors/make.py.

pub const ROWS: &str = r#"
~ An identifier begins with a letter, _ or $, and goes on with these and digits.
a _b $c A1_$ $1a|5|a%0A_b%0A$c%0AA1_$%0A$1a%0A|%E0%01%00%EA%EA%81%83%D7%86q%03%87%B2%81aq%0A%EB%81%83%D8%86q%03%87%B3%82_bq%0B%EB%81%83%D8%86q%03%87%B3%82$cq%0C%ED%81%83%DA%86q%03%87%B5%84A1_$q%0D%EC%81%83%D9%86q%03%87%B4%83$1aq%0E|B7CFF878D6463736|.RDDXG/S+3HOCO.T|
a%23|BadToken 1|a%0A|%E0%01%00%EA%EA%81%83%D7%86q%03%87%B2%81aq%0A|0AA12D3E66EE1909|.R|
%C3%A9|BadToken 0||%E0%01%00%EA|82AA392BD94C7662|.8|
@a|BadToken 0||%E0%01%00%EA|82AA392BD94C7662|.8|
~ It goes on as far as it can.
abc1 d[e]|3|abc1%0Ad%0A[e]%0A|%E0%01%00%EA%ED%81%83%DA%86q%03%87%B5%84abc1q%0A%EA%81%83%D7%86q%03%87%B2%81dq%0B%EA%81%83%D7%86q%03%87%B2%81e%B2q%0C|944DBB403C5E47EF|.RXM)YOR4|
a-b|BadToken 1|a%0A|%E0%01%00%EA%EA%81%83%D7%86q%03%87%B2%81aq%0A|8479B37C6534A95B|.RW|
a.b|BadToken 1|a%0A|%E0%01%00%EA%EA%81%83%D7%86q%03%87%B2%81aq%0A|8479B37C6534A95B|.RW|
~ $ with digits alone is a symbol id.
$4 $4a|2|name%0A$4a%0A|%E0%01%00%EAq%04%EC%81%83%D9%86q%03%87%B4%83$4aq%0A|1603E9E380A568C6|.$F8RB|
$10|BadSymbol 0||%E0%01%00%EA|BD576FE2E35FABCC|.$:|
$99999999999999999999|BadSymbol 0||%E0%01%00%EA|3C6C0AE04D8CDD27|.$.VVVVVVVVVVVVVVVVVV|
~ An id may have leading zeros.
$04|1|name%0A|%E0%01%00%EAq%04|996848E5E8188972|.$R|
$010|BadSymbol 0||%E0%01%00%EA|2BAD459511B33A4E|.$RV|
~ null, true and false are values and no symbols.
null true false 'true'|4|null%0Atrue%0Afalse%0A'true'%0A|%E0%01%00%EA%0F%11%10%ED%81%83%DA%86q%03%87%B5%84trueq%0A|BD035E61EBD6C2BB|.ZT$<G'-)2YXC8#A<B*NW3|
{true:1}|BadToken 1|{|%E0%01%00%EA|5DC29DFF06457DDB|.Y,;%FFF|
null::1|BadToken 4|null%0A|%E0%01%00%EA%0F|4675BEA947427474|.ZT$<RR|
false::a|BadToken 5|false%0A|%E0%01%00%EA%10|DF6F33315C96964F|.4AL-*JJ|
~ nan is a float, and no symbol.
nanx 'nan'|2|nanx%0A'nan'%0A|%E0%01%00%EA%ED%81%83%DA%86q%03%87%B5%84nanxq%0A%EC%81%83%D9%86q%03%87%B4%83nanq%0B|93B6D99DFDDA86A5|.Z>5US>3P4|
nan|Float 0||%E0%01%00%EA|DC1922A73605A126|.Z>|
{nan:1}|BadToken 1|{|%E0%01%00%EA|BCFEC56EC5CE63C1|.Y,;FFF|
~ After null and a point stands the name of a type.
null null.null null.bool null.int null.float null.decimal null.timestamp null.symbol null.string null.clob null.blob null.list null.sexp null.struct|14|null%0Anull%0Anull.bool%0Anull.int%0Anull.float%0Anull.decimal%0Anull.timestamp%0Anull.symbol%0Anull.string%0Anull.clob%0Anull.blob%0Anull.list%0Anull.sexp%0Anull.struct%0A|%E0%01%00%EA%0F%0F%1F/O_o%7F%8F%9F%AF%BF%CF%DF|9D899D00D01A9121|.ZT$<G1L%Y;;;;;3KTK7KKKKU3D-RYWWW(UC,7SKKKKK@A'@C%ZZZZZZZ;-G8+=PPPPPPPPP&(0(P8NNNNNN1#.55@YYYYYY$VP=>?OOOO8)69[.>>>>*H%;,55555P<A%-W7777-J=+;8444444|
null.ints|BadToken 0||%E0%01%00%EA|4E406054701FDBE6|.ZT$<888W|
null.|BadToken 0||%E0%01%00%EA|1E56C10A2F0D9940|.ZT$<|
null. int|BadToken 0||%E0%01%00%EA|250FCF18A01E8280|.ZT$<8888|
null.Int|BadToken 0||%E0%01%00%EA|B83176F2A2F37D30|.ZT$<888|
~ The name goes on as far as an identifier.
null.int[] null.int//|3|null.int%0A[]%0Anull.int%0A|%E0%01%00%EA/%B0/|A05B91A95843898B|.ZT$<888W-.7TK<IAAAF?|
null.int1|BadToken 0||%E0%01%00%EA|4E406054701FDBE6|.ZT$<888W|
null.int_|BadToken 0||%E0%01%00%EA|4E406054701FDBE6|.ZT$<888W|
null.int$|BadToken 0||%E0%01%00%EA|4E406054701FDBE6|.ZT$<888W|
~ +inf and -inf, where no identifier goes on, are floats.
(+infx -infx)|1|('+' infx '-' infx)%0A|%E0%01%00%EA%EE%92%81%83%DE%8E%86q%03%87%B9%81+%84infx%81-%C8q%0Aq%0Bq%0Cq%0B|AF3122359B87BCA3|..PH,TXZI'U'$|
+inf|Float 0||%E0%01%00%EA|0A3D78A02B508C3A|.888|
(-inf)|Float 1|(|%E0%01%00%EA|48F5AF36A9B13618|..S1JT|
+infx|BadToken 0||%E0%01%00%EA|3873FE0D843114CF|.8885|
~ Operators are symbols without quotes in an S-expression alone.
(+ a)|1|('+' a)%0A|%E0%01%00%EA%EC%81%83%D9%86q%03%87%B4%81+%81a%C4q%0Aq%0B|D38310A4D5623D33|..P=N|
[+]|BadToken 1|[|%E0%01%00%EA|D780118B0C09607E|.X+|
+|BadToken 0||%E0%01%00%EA|45CF7FAA53416536|.|
{+:1}|BadToken 1|{|%E0%01%00%EA|AE11B11F9004A183|.YFFF|
~ An operator is as many of nineteen characters as there are.
(!%23%25&*+-./;<=>?@^`%7C%7E)|1|('!%23%25&*+-./;<=>?@^`%7C%7E')%0A|%E0%01%00%EA%EE%9F%81%83%DE%9B%86q%03%87%BE%95%8E%93!%23%25&*+-./;<=>?@^`%7C%7E%C2q%0A|03A15539453E5C18|..FW-Y6$:NA0A$1-S2L-A|
(:)|BadToken 1|(|%E0%01%00%EA|D44197150FB13600|..X|
(\)|BadToken 1|(|%E0%01%00%EA|D44197150FB13600|..X|
(+,)|BadToken 2|('+'|%E0%01%00%EA|22CE57B6D8584CE6|..PN|
~ A comment ends an operator.
(+//x%0A+/*y*/-)|1|('+' '+' '-')%0A|%E0%01%00%EA%EC%81%83%D9%86q%03%87%B4%81+%81-%C6q%0Aq%0Aq%0B|8882740B30D079E3|..P8ZQ;T8LAA-@|
(+/*)|Truncated 2|('+'|%E0%01%00%EA|991B2EEA04898B73|..P83|
(+//)|Truncated 5|('+'|%E0%01%00%EA|9BE4A3A674164D62|..P8$|
~ - begins a number only where a token begins.
(-1 - 1 a--1 +-1)|1|(-1 '-' 1 a '--' 1 '+-' 1)%0A|%E0%01%00%EA%EE%93%81%83%DE%8F%86q%03%87%BA%81-%81a%82--%82+-%CE%901%01q%0A!%01q%0Bq%0C!%01q%0D!%01|02D2F1FAD4D11D8D|..SA2$3K//QVZ[@<G|
(1-1)|BadToken 1|(|%E0%01%00%EA|E8218EA45224FDE9|...XX|
(- -1a)|BadToken 3|('-'|%E0%01%00%EA|0B552329DB5C43FF|..S%CT3|
~ $ion_1_0 at top level without quotes and annotations is a version marker.
$ion_1_0 1 $ion_1_0 $4|2|1%0Aname%0A|%E0%01%00%EA!%01q%04|61ED93EAEABF2797|.$0*E@EG+(Z/MV7LM/5W1-|
$ion_symbol_table::{symbols:["a"]} $10 $ion_1_0 $10|BadSymbol 48|a%0A|%E0%01%00%EA%EA%81%83%D7%86q%03%87%B2%81aq%0A|AC63B132B7D3B9F2|.$0*E@H1HKQ[R,@AIETS6<5.(T5<,Y-1MU48E./$'00/<'-'<(5|
~ With other digits it is a marker of another version.
$ion_1_ $ion_1 [$ion_1_1] a::$ion_1_1 $ion_1_1::a|5|$ion_1_%0A$ion_1%0A['$ion_1_1']%0Aa::'$ion_1_1'%0A'$ion_1_1'::a%0A|%E0%01%00%EA%EE%90%81%83%DD%86q%03%87%B8%87$ion_1_q%0A%EE%8F%81%83%DC%86q%03%87%B7%86$ion_1q%0B%EE%92%81%83%DE%8E%86q%03%87%B9%88$ion_1_1%B2q%0C%EA%81%83%D7%86q%03%87%B2%81a%E4%81%8Dq%0C%E4%81%8Cq%0D|6C0BD9C28C652481|.$0*E@EG+X[Q0@O9-JAESXH[4H[6X#.(?FWB9.,&PQ-<[:KKX|
$ion_1_1|BadVersion 0||%E0%01%00%EA|7074DD5FF4EEDFBA|.$0*E@EG|
$ion_2_0|BadVersion 0||%E0%01%00%EA|82E54BF2B490FC9E|.$0*E@HM|
1 $ion_10_00|BadVersion 2|1%0A|%E0%01%00%EA!%01|454C9D8EFE26265E|.B7<Q88=(%7K|
$ion_01_0|BadVersion 0||%E0%01%00%EA|48D7C976A42DE092|.$0*E@1%T|
~ In quotes or by its id it is no version marker.
$ion_symbol_table::{symbols:["a"]} '$ion_1_0' $2 $10|3|'$ion_1_0'%0A'$ion_1_0'%0Aa%0A|%E0%01%00%EAq%02q%02%EA%81%83%D7%86q%03%87%B2%81aq%0A|45FBF4F0EF6915E4|.$0*E@H1HKQ[R,@AIETS6<5.(T5<,YT1MU48P@(.2C,U7XJZ>&R.|
'$ion_1_0' $10|BadSymbol 11|'$ion_1_0'%0A|%E0%01%00%EAq%02|16C3F8DE89D589A2|.0&T3TC[7@1%.,|
"#;
