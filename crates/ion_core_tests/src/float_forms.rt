//! Floats in text and in octets.
use crate::same::{holds, same};
use ion_float::octets::{float_from_octets, float_to_octets};
use ion_float::text::{float_to_text, nearest_float};
use ion_meter::fault::Reason;
use ion_value::float::Float64;

/// The bits of infinity, above which the bits of a magnitude are no number's.
const INFINITY: u64 = 0x7ff0_0000_0000_0000;

/// The bits of floats, and their texts: the digits are those that Python's `repr` writes.
const TEXTS: &[(u64, &str)] = &[
    (0x0000_0000_0000_0000, "0e0"),
    (0x8000_0000_0000_0000, "-0e0"),
    (0x3ff0_0000_0000_0000, "1e0"),
    (0x3ff8_0000_0000_0000, "1.5e0"),
    (0x3fb9_9999_9999_999a, "1e-1"),
    (0xc004_0000_0000_0000, "-2.5e0"),
    (0x44df_e185_ca57_c517, "6.02214076e23"),
    (0x0000_0000_0000_0001, "5e-324"),
    (0x000f_ffff_ffff_ffff, "2.225073858507201e-308"),
    (0x0010_0000_0000_0000, "2.2250738585072014e-308"),
    (0x7fef_ffff_ffff_ffff, "1.7976931348623157e308"),
    (0xffef_ffff_ffff_ffff, "-1.7976931348623157e308"),
    (0x7ff0_0000_0000_0000, "+inf"),
    (0xfff0_0000_0000_0000, "-inf"),
    (0x7ff8_0000_0000_0000, "nan"),
    (0x0000_0000_0000_0003, "1.5e-323"),
    (0x4480_f0cf_064d_d592, "1e22"),
    (0x44b5_2d02_c7e1_4af6, "1e23"),
    (0x437b_69b4_ba63_0f35, "1.2345678901234568e17"),
    (0xffef_ffff_ffff_ffff, "-1.7976931348623157e308"),
    (0x0010_0000_0000_0000, "2.2250738585072014e-308"),
    (0x3e7a_d7f2_9abc_af48, "1e-7"),
    (0x4059_0000_0000_0000, "1e2"),
    (0x4011_6666_6666_6666, "4.35e0"),
    (0x4340_0000_0000_0000, "9.007199254740992e15"),
    (0xf2a7_4de4_52e6_b438, "-1.989032661366619e244"),
    (0x6513_270e_269e_0d37, "7.761117632285041e178"),
    (0x0c5c_7fd0_a6a3_a450, "3.980498358697587e-249"),
    (0xd23f_0824_128b_2f33, "-1.5432835417340557e88"),
    (0x1818_e811_892f_902b, "1.3647584518757569e-192"),
    (0x9531_985d_5d9d_c9f8, "-1.3701135617873088e-206"),
    (0xe8e2_5d94_0ed9_0475, "-1.7160537630466207e197"),
    (0x36f6_75cc_81e7_4ef5, "6.294675241195386e-44"),
];

/// The bits of floats, and their fewest octets.
const OCTETS: &[(u64, &[u8])] = &[
    (0x0000_0000_0000_0000, &[]),
    (0x8000_0000_0000_0000, &[0x80, 0x00, 0x00, 0x00]),
    (0x3ff0_0000_0000_0000, &[0x3f, 0x80, 0x00, 0x00]),
    (0x3ff8_0000_0000_0000, &[0x3f, 0xc0, 0x00, 0x00]),
    (
        0x3fb9_9999_9999_999a,
        &[0x3f, 0xb9, 0x99, 0x99, 0x99, 0x99, 0x99, 0x9a],
    ),
    (0x7ff0_0000_0000_0000, &[0x7f, 0x80, 0x00, 0x00]),
    (0xfff0_0000_0000_0000, &[0xff, 0x80, 0x00, 0x00]),
    (0x7ff8_0000_0000_0000, &[0x7f, 0xc0, 0x00, 0x00]),
    (0x47ef_ffff_e000_0000, &[0x7f, 0x7f, 0xff, 0xff]),
    (
        0x47ef_ffff_f000_0000,
        &[0x47, 0xef, 0xff, 0xff, 0xf0, 0x00, 0x00, 0x00],
    ),
    (
        0x47f0_0000_0000_0000,
        &[0x47, 0xf0, 0x00, 0x00, 0x00, 0x00, 0x00, 0x00],
    ),
    (0x36a0_0000_0000_0000, &[0x00, 0x00, 0x00, 0x01]),
    (
        0x3690_0000_0000_0000,
        &[0x36, 0x90, 0x00, 0x00, 0x00, 0x00, 0x00, 0x00],
    ),
    (0x36b8_0000_0000_0000, &[0x00, 0x00, 0x00, 0x03]),
    (
        0x380f_ffff_ff9f_dba8,
        &[0x38, 0x0f, 0xff, 0xff, 0xff, 0x9f, 0xdb, 0xa8],
    ),
    (0x3810_0000_0000_0000, &[0x00, 0x80, 0x00, 0x00]),
    (0x3808_0000_0000_0000, &[0x00, 0x60, 0x00, 0x00]),
    (0x380f_ffff_c000_0000, &[0x00, 0x7f, 0xff, 0xff]),
    (
        0x4170_0000_1000_0000,
        &[0x41, 0x70, 0x00, 0x00, 0x10, 0x00, 0x00, 0x00],
    ),
    (0xc170_0000_0000_0000, &[0xcb, 0x80, 0x00, 0x00]),
    (
        0x0000_0000_0000_0001,
        &[0x00, 0x00, 0x00, 0x00, 0x00, 0x00, 0x00, 0x01],
    ),
    (
        0x7fef_ffff_ffff_ffff,
        &[0x7f, 0xef, 0xff, 0xff, 0xff, 0xff, 0xff, 0xff],
    ),
    (
        0x47f0_0000_0000_0000,
        &[0x47, 0xf0, 0x00, 0x00, 0x00, 0x00, 0x00, 0x00],
    ),
    (0x3ff0_0000_2000_0000, &[0x3f, 0x80, 0x00, 0x01]),
    (
        0x3ff0_0000_1000_0000,
        &[0x3f, 0xf0, 0x00, 0x00, 0x10, 0x00, 0x00, 0x00],
    ),
];

/// Runs of digits, and the bits of the floats nearest to them.
const RUNS: &[(&str, u64)] = &[
    ("0e0", 0x0000_0000_0000_0000),
    ("-0e0", 0x8000_0000_0000_0000),
    ("0.e0", 0x0000_0000_0000_0000),
    ("1E0", 0x3ff0_0000_0000_0000),
    ("1.e+2", 0x4059_0000_0000_0000),
    ("15e-1", 0x3ff8_0000_0000_0000),
    ("0.1e0", 0x3fb9_9999_9999_999a),
    ("9007199254740993e0", 0x4340_0000_0000_0000),
    (
        "9007199254740993.0000000000000000000000000001e0",
        0x4340_0000_0000_0001,
    ),
    ("2.2250738585072011e-308", 0x000f_ffff_ffff_ffff),
    ("4.9406564584124654e-324", 0x0000_0000_0000_0001),
    ("2e-324", 0x0000_0000_0000_0000),
    ("-1e-400", 0x8000_0000_0000_0000),
    ("0e999999999999999999999", 0x0000_0000_0000_0000),
    ("0e-999999999999999999999", 0x0000_0000_0000_0000),
    ("1.7976931348623158e308", 0x7fef_ffff_ffff_ffff),
    (
        "179769313486231570000000000000000000000e270",
        0x7fef_ffff_ffff_ffff,
    ),
];

/// Runs of digits that round to infinity.
const PAST: &[&str] = &[
    "1e309",
    "-1e400",
    "1.7976931348623159e308",
    "1e999999999999999999999",
];

// The bits of the float nearest to a run of digits.
fn read(text: &str) -> Result<u64, Reason> {
    Ok(nearest_float(text.as_bytes())?.bits())
}

#[test]
fn the_texts_of_floats(rt: HostRuntime) {
    for (bits, text) in TEXTS {
        let float = Float64::from_bits(*bits);
        same(&rt, float_to_text(float).as_str(), *text);
        if *bits % (1 << 63) < INFINITY {
            same(&rt, read(text), Ok(*bits));
        }
    }
}

#[test]
fn the_octets_of_floats(rt: HostRuntime) {
    for (bits, octets) in OCTETS {
        let float = Float64::from_bits(*bits);
        let written = float_to_octets(float);
        same(&rt, &written.block()[..written.len()], *octets);
        same(&rt, float_from_octets(octets), Some(float));
        same(&rt, float_from_octets(&bits.to_be_bytes()), Some(float));
    }
}

#[test]
fn other_lengths_are_no_floats(rt: HostRuntime) {
    let octets = [0; 16];
    for count in 1..octets.len() {
        let float = float_from_octets(&octets[..count]);
        same(&rt, float.is_some(), count == 4 || count == 8);
    }
}

#[test]
fn floats_that_are_read(rt: HostRuntime) {
    for (text, bits) in RUNS {
        same(&rt, read(text), Ok(*bits));
    }
    for text in PAST {
        same(&rt, read(text), Err(Reason::Range));
    }
}

#[test]
fn all_that_are_no_number_are_one(rt: HostRuntime) {
    let float = Float64::from_bits(0xfff0_0000_0000_0001);
    same(&rt, float, Float64::nan());
    same(&rt, float.bits(), 0x7ff8_0000_0000_0000);
    holds(&rt, float.is_nan());
    same(
        &rt,
        Float64::from_bits(0) == Float64::from_bits(1 << 63),
        false,
    );
    same(&rt, Float64::infinite(true).bits(), 0xfff0_0000_0000_0000);
    same(
        &rt,
        float_from_octets(&[0xff, 0x80, 0, 1]),
        Some(Float64::nan()),
    );
}
