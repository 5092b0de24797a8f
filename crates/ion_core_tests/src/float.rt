//! The shortest decimals of doubles.

use crate::same::{holds, same};
use ion_float::shortest::shortest;

/// The bits of doubles, and the digits and the power of ten that Python's `repr` writes of them.
const DOUBLES: &[(u64, u64, i32)] = &[
    // Some that are known.
    (0x3ff0_0000_0000_0000, 1, 0),
    (0x3fb9_9999_9999_999a, 1, -1),
    (0x3fd3_3333_3333_3334, 30_000_000_000_000_004, -17),
    (0x3ff8_0000_0000_0000, 15, -1),
    (0x4059_0000_0000_0000, 1, 2),
    (0x4011_6666_6666_6666, 435, -2),
    (0x41b1_de78_4a00_0000, 299_792_458, 0),
    (0x44df_e185_ca57_c517, 602_214_076, 15),
    (0x390b_860b_de02_3111, 662_607_015, -42),
    (0x01aa_74fe_1c1e_8908, 12_345_678_901_234_568, -316),
    // The least and the greatest, and the least with all its digits.
    (0x0000_0000_0000_0001, 5, -324),
    (0x0000_0000_0000_0003, 15, -324),
    (0x000f_ffff_ffff_ffff, 2_225_073_858_507_201, -323),
    (0x0010_0000_0000_0000, 22_250_738_585_072_014, -324),
    (0x7fef_ffff_ffff_ffff, 17_976_931_348_623_157, 292),
    // Whole numbers about 2^53, and powers of ten.
    (0x433f_ffff_ffff_ffff, 9_007_199_254_740_991, 0),
    (0x4340_0000_0000_0000, 9_007_199_254_740_992, 0),
    (0x4340_0000_0000_0001, 9_007_199_254_740_994, 0),
    (0x4341_c379_37e0_8000, 1, 16),
    (0x437b_69b4_ba63_0f35, 12_345_678_901_234_568, 1),
    (0x4480_f0cf_064d_d592, 1, 22),
    (0x44b5_2d02_c7e1_4af6, 1, 23),
    (0x3ee4_f8b5_88e3_68f1, 1, -5),
    // The one whose power is the greatest.
    (0x7fe1_ccf3_85eb_c8a0, 1, 308),
    // Powers of two: some take the multiple above the nearest.
    (0x3d30_0000_0000_0000, 5_684_341_886_080_802, -29),
    (0x43b0_0000_0000_0000, 1_152_921_504_606_847, 3),
    (0x4580_0000_0000_0000, 6_189_700_196_426_902, 11),
    (0x7fe0_0000_0000_0000, 898_846_567_431_158, 293),
    (0x0008_0000_0000_0000, 11_125_369_292_536_007, -324),
    (0x3eb0_0000_0000_0000, 95_367_431_640_625, -20),
    (0x0030_0000_0000_0000, 8_900_295_434_028_806, -323),
    // Halfway between two multiples.
    (0x4230_0000_0000_0400, 6_871_947_673_601_562, -5),
    (0x4360_0000_0000_0000, 3_602_879_701_896_397, 1),
];

#[test]
fn the_digits_are_those_of_repr(rt: HostRuntime) {
    for (bits, digits, power) in DOUBLES {
        let bits = *bits;
        holds(&rt, 0 < bits);
        holds(&rt, bits < 0x7ff0_0000_0000_0000);
        let found = shortest(bits);
        same(
            &rt,
            (found.digits, found.row as i32 - 342),
            (*digits, *power),
        );
    }
}
