//! Containers and NOP pads, each row after a version marker.

pub const LISTS: &str = "
B0 C0 D0|4/4 begin list; 5/4 end; 5/5 begin sexp; 6/5 end; 6/6 begin struct; 7/6 end; end|
BE 80 CE 80 DE 80|4/4 begin list; 6/4 end; 6/6 begin sexp; 8/6 end; 8/8 begin struct; 10/8 end; end|
BE 8E BD 11 11 11 11 11 11 11 11 11 11 11 11 11|4/4 begin list; 6/4 begin list; 7/4 true; 8/4 true; 9/4 true; 10/4 true; 11/4 true; 12/4 true; 13/4 true; 14/4 true; 15/4 true; 16/4 true; 17/4 true; 18/4 true; 19/4 true; 20/4 end; 20/4 end; end|
C3 B1 11 10 11|4/4 begin sexp; 5/4 begin list; 6/4 true; 7/4 end; 7/4 false; 8/4 end; 8/8 true; end|
B1 21 05|4/4 begin list; Overrun at 5|
B1 21|4/4 begin list; Overrun at 5|
B1 2E|4/4 begin list; Overrun at 5|
B1 D1|4/4 begin list; Overrun at 5|
B2 B3 10|4/4 begin list; Overrun at 5|
B2 D1 80|4/4 begin list; BadDescriptor at 5|
B2 11|4/4 begin list; 5/4 true; Truncated at 6|
B1|4/4 begin list; Truncated at 5|
BE|Truncated at 4|
B4 E0 01 00 EA|4/4 begin list; BadDescriptor at 5|
B2 40 11|4/4 begin list; Float at 5|
BE 7F 7F 7F 7F 7F 7F 7F 7F FF|4/4 begin list; Truncated at 14|
BE 7F 7F 7F 7F 7F 7F 7F 7F 7F|BadVar at 4|
B3 2E 7F 7F|4/4 begin list; Overrun at 5|
";

pub const STRUCTS: &str = "
D6 84 B4 21 01 21 02|4/4 begin struct; 6/4 4@5: begin list; 7/4 int 1; 9/4 int 2; 11/4 end; 11/4 end; end|
D4 84 11 84 10|4/4 begin struct; 6/4 4@5: true; 8/4 4@7: false; 9/4 end; end|
D1 83 84 21 05|4/4 begin struct; 7/4 4@6: int 5; 9/4 end; end|
D1 84 8A 11 84 10|4/4 begin struct; 7/4 10@6: true; 9/4 4@8: false; 10/4 end; end|
D1 80|BadDescriptor at 4|
D1 00 80|BadDescriptor at 4|
D1|Truncated at 4|
D2 04 84|4/4 begin struct; Overrun at 7|
D1 81 84|4/4 begin struct; Overrun at 7|
D2 04 04 84|4/4 begin struct; Overrun at 5|
D3 04|4/4 begin struct; Truncated at 5|
D3 84|4/4 begin struct; Truncated at 6|
D3|4/4 begin struct; Truncated at 5|
DA 00 00 00 00 00 00 00 00 84 11|4/4 begin struct; 14/4 4@5: true; 15/4 end; end|
DA 00 00 00 00 00 00 00 00 00 84|4/4 begin struct; BadVar at 5|
DA 7F 7F 7F 7F 7F 7F 7F 7F FF 11|4/4 begin struct; 14/4 2147483648@5: true; 15/4 end; end|
D6 07 7F 7F 7F FF 11|4/4 begin struct; 10/4 2147483647@5: true; 11/4 end; end|
D4 84 D2 85 11|4/4 begin struct; 6/4 4@5: begin struct; 8/4 5@7: true; 9/4 end; 9/4 end; end|
";

pub const NOP_PADS: &str = "
00 11 01 FF 10|5/5 true; 8/8 false; end|
0E 80 11|6/6 true; end|
0E 83 FF 00 E0 11|9/9 true; end|
03 00|Truncated at 4|
0E 7F 7F 7F 7F 7F 7F 7F 7F FF|Truncated at 4|
0E 7F 7F 7F 7F 7F 7F 7F 7F 7F|BadVar at 4|
B3 11 01 FF|4/4 begin list; 5/4 true; 8/4 end; end|
C1 00 11|4/4 begin sexp; 6/4 end; 6/6 true; end|
B1 01 FF|4/4 begin list; Overrun at 5|
D5 80 01 FF 84 11|4/4 begin struct; 9/4 4@8: true; 10/4 end; end|
D5 FE 01 FF 84 11|4/4 begin struct; 9/4 4@8: true; 10/4 end; end|
D2 84 00|4/4 begin struct; 7/4 end; end|
D2 84 0F|4/4 begin struct; 6/4 4@5: null.null; 7/4 end; end|
D1 82 84 00|4/4 begin struct; 8/4 end; end|
";

/// Containers that are too deep, or not.
pub const LIMITED: &str = "
11 BF|4/4 true; 5/5 null.list; end|depth=0|
B0|DepthLimit at 4|depth=0|
C1 11|DepthLimit at 4|depth=0|
D2 84 11|DepthLimit at 4|depth=0|
D1 82 84 11|DepthLimit at 4|depth=0|
D1 80|BadDescriptor at 4|depth=0|
BE 7F 7F 7F 7F 7F 7F 7F 7F 7F|BadVar at 4|depth=0|
BE 7F|Truncated at 4|depth=0|
B9|DepthLimit at 4|depth=0|
B1 B0|4/4 begin list; DepthLimit at 5|depth=1|
B1 B1|4/4 begin list; Overrun at 5|depth=1|
D2 84 B0|4/4 begin struct; DepthLimit at 6|depth=1|
B0 B0|4/4 begin list; 5/4 end; 5/5 begin list; 6/5 end; end|depth=1|
";
