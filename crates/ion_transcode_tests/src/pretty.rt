//! Streams that are written as pretty text.

use super::round_trip::expect_round_trip;
use super::runs::{Case, expect};
use super::tables::{Kind, expect_rows};
use ion_transcode::to::To;
use std::alloc::Global;
use std::process::Abort;

/// Asserts the verdict on a stream that is written as pretty text, and what is written of it, and that what is
/// accepted goes there and back.
pub fn expect_pretty(rt: &impl Abort, alloc: Global, case: Case, output: &[u8]) {
    expect(rt, alloc, case, To::Pretty, output);
    expect_round_trip(rt, alloc, case);
}

/// Streams, their verdicts, and their pretty text.
const STREAMS: &str = r#"
|0||
5 -0. null.list 2007T 'a b' $0|6|5%0A-0.%0Anull.list%0A2007T%0A'a b'%0A$0%0A|
[] () {} a::b::[]|4|[]%0A()%0A{}%0Aa::b::[]%0A|
[1,[2,x],[[]]]|1|[%0A  1,%0A  [%0A    2,%0A    x%0A  ],%0A  [%0A    []%0A  ]%0A]%0A|
{a:[1,{b:[]}],'c d':{},'':$0::5,$0:6,'null':a}|1|{%0A  a: [%0A    1,%0A    {%0A      b: []%0A    }%0A  ],%0A  'c d': {},%0A  '': $0::5,%0A  $0: 6,%0A  'null': a%0A}%0A|
(a (b) () + '-':: [1.50,2d1] {a:(b c)})|1|(%0A  a%0A  (%0A    b%0A  )%0A  ()%0A  '+'%0A  '-'::[%0A    1.50,%0A    2d1%0A  ]%0A  {%0A    a: (%0A      b%0A      c%0A    )%0A  }%0A)%0A|
a::{b:c::'d e'::1} d::[e::[],f::x]|2|a::{%0A  b: c::'d e'::1%0A}%0Ad::[%0A  e::[],%0A  f::x%0A]%0A|
["\"\\\t\x01%C3%A9\n  ,", '''a'b''', {{ aGk= }}, {{"\x00\xff\"{"}}]|1|[%0A  "\"\\\t\x01%C3%A9\n  ,",%0A  "a'b",%0A  {{aGk=}},%0A  {{"\x00\xff\"{"}}%0A]%0A|
# What is open stays open.
[1,{a:|Truncated 6|[%0A  1,%0A  {|
{a:{b:1},c:(x 1_ |BadToken 14|{%0A  a: {%0A    b: 1%0A  },%0A  c: (%0A    x|
1 [[]] [ [ [|Truncated 12|1%0A[%0A  []%0A]%0A[%0A  [%0A    [|
# Binary, and declarations.
%E0%01%00%EA|0||
%E0%01%00%EA%D6%84%B4%21%01%21%02%C2%B0%B0|2|{%0A  name: [%0A    1,%0A    2%0A  ]%0A}%0A(%0A  []%0A  []%0A)%0A|
%E0%01%00%EA%11%D6%84%B4%21%01%21|Truncated 10|true%0A{%0A  name: [%0A    1|
$3::{symbols:["a"]} {$10:$10} $ion_1_0 [b]|2|{%0A  a: a%0A}%0A[%0A  b%0A]%0A|
# More blanks than are put at once.
[[[[[[[[[[[[[[[[[[[[[[[[[[[[[[[[[[[]]]]]]]]]]]]]]]]]]]]]]]]]]]]]]]]]]]|1|[%0A  [%0A    [%0A      [%0A        [%0A          [%0A            [%0A              [%0A                [%0A                  [%0A                    [%0A                      [%0A                        [%0A                          [%0A                            [%0A                              [%0A                                [%0A                                  [%0A                                    [%0A                                      [%0A                                        [%0A                                          [%0A                                            [%0A                                              [%0A                                                [%0A                                                  [%0A                                                    [%0A                                                      [%0A                                                        [%0A                                                          [%0A                                                            [%0A                                                              [%0A                                                                [%0A                                                                  [%0A                                                                    []%0A                                                                  ]%0A                                                                ]%0A                                                              ]%0A                                                            ]%0A                                                          ]%0A                                                        ]%0A                                                      ]%0A                                                    ]%0A                                                  ]%0A                                                ]%0A                                              ]%0A                                            ]%0A                                          ]%0A                                        ]%0A                                      ]%0A                                    ]%0A                                  ]%0A                                ]%0A                              ]%0A                            ]%0A                          ]%0A                        ]%0A                      ]%0A                    ]%0A                  ]%0A                ]%0A              ]%0A            ]%0A          ]%0A        ]%0A      ]%0A    ]%0A  ]%0A]%0A|
"#;

#[test]
fn streams(rt: HostRuntime) {
    expect_rows(&rt, rt.alloc(), Kind::Pretty, STREAMS);
}
