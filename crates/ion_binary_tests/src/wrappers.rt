//! Annotation wrappers, each row after a version marker.

pub const ANNOTATED: &str = "
E4 81 84 21 05|7/4 4@6:: int 5; end|
E3 81 84 11|7/4 4@6:: true; end|
E3 81 84 0F|7/4 4@6:: null.null; end|
E3 81 84 4F|7/4 4@6:: null.float; end|
E4 82 84 8A 11|8/4 4@6:: 10@7:: true; end|
E5 83 04 84 8A 11|9/4 516@6:: 10@8:: true; end|
EE 83 81 84 11|8/4 4@7:: true; end|
E5 00 81 84 21 05|8/4 4@7:: int 5; end|
E5 00 00 81 84 11|9/4 4@8:: true; end|
EC 89 7F 7F 7F 7F 7F 7F 7F 7F FF 71 0A|15/4 2147483648@6:: symbol 10@15; end|
EC 8A 00 00 00 00 00 00 00 00 00 80 11|BadVar at 6|
E5 81 84 B2 11 10|7/4 4@6:: begin list; 8/4 true; 9/4 false; 10/4 end; end|
D5 84 E3 81 85 11|4/4 begin struct; 9/4 4@5: 5@8:: true; 10/4 end; end|
B4 E3 81 84 11 10|4/4 begin list; 8/4 4@7:: true; 9/4 end; 9/9 false; end|
E7 81 84 B4 E3 81 85 11|7/4 4@6:: begin list; 11/4 5@10:: true; 12/4 end; end|
";

pub const HEADS: &str = "
E0 80|Truncated at 4|
E1 81|BadDescriptor at 4|
E2 81 84|BadDescriptor at 4|
EF|BadDescriptor at 4|
EE 80|Overrun at 4|
EE 81 01|Overrun at 4|
EE 81|Truncated at 4|
EE|Truncated at 4|
E3|Truncated at 4|
B1 E3|4/4 begin list; Truncated at 5|
B2 E3 81 84 11|4/4 begin list; Overrun at 5|
B1 EE|4/4 begin list; Overrun at 5|
EE 81 81|BadAnnotation at 4|
EE 82 81 84|BadAnnotation at 4|
B2 EE 8A 00 00 00 00 00 00 00 00 00|4/4 begin list; BadVar at 5|
EE 7F 7F 7F 7F 7F 7F 7F 7F 7F|BadVar at 4|
E3 80 11 11|BadAnnotation at 4|
E3 82 84 11|BadAnnotation at 4|
E3 85 84 11|BadAnnotation at 4|
E3 85|BadAnnotation at 4|
E4 01 81 84 11|BadAnnotation at 4|
E3 01 01 01|Overrun at 4|
";

pub const INSIDES: &str = "
E5 81 84|Truncated at 7|
E4 81|Truncated at 6|
E4 82 04|Truncated at 6|
E4 81 04 84 11|Overrun at 6|
E6 81 84 E3 81 84 11|BadAnnotation at 7|
E3 81 84 E0|BadAnnotation at 7|
E3 81 84 E1|BadAnnotation at 7|
E3 81 84 E2|BadAnnotation at 7|
E3 81 84 EF|BadAnnotation at 7|
E3 81 84 00|BadAnnotation at 7|
E3 81 84 0E|BadAnnotation at 7|
E4 81 84 01 00|BadAnnotation at 7|
E3 81 84 40|Float at 7|
E3 81 84 F0|BadDescriptor at 7|
E3 81 84 12|BadDescriptor at 7|
E4 81 84 D1 80|BadDescriptor at 7|
E4 81 84 22 05 06|Overrun at 7|
E3 81 84 2E 80|Overrun at 7|
E3 81 84 B1 11|Overrun at 7|
E4 81 84 11 11|BadAnnotation at 7|
E6 81 84 82 61|BadAnnotation at 7|
E6 81 84 82 C3 28 11|BadAnnotation at 7|
E5 81 84 31 00 11|BadAnnotation at 7|
E5 81 84 B1 11 11|BadAnnotation at 7|
E4 81 84 0F 0F|BadAnnotation at 7|
E5 81 84 22 05|Truncated at 7|
";

/// Small limits. An annotation counts 16, and what ends before its wrapper is refused for that before
/// it is too deep or too long.
pub const LIMITED: &str = "
E4 81 84 21 05|AnnotationLimit at 6|scalar=15|
E4 81|Truncated at 6|scalar=15|
E4 81 04 84 11|Overrun at 6|scalar=15|
E4 81 84 21 05|7/4 4@6:: int 5; end|scalar=16|
E4 82 84 8A 11|AnnotationLimit at 7|scalar=16|
EE 96 81 84 8E 91 61 61 61 61 61 61 61 61 61 61 61 61 61 61 61 61 61|BadAnnotation at 8|scalar=16|
E4 82 84 8A 11|8/4 4@6:: 10@7:: true; end|scalar=47|
E5 83 84 8A 8B 11|AnnotationLimit at 8|scalar=47|
E4 81 84 B0 11|BadAnnotation at 7|depth=0|
E3 81 84 B0|DepthLimit at 7|depth=0|
";
