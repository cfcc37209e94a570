use amounts::*;

#[test]
fn negative_price_long(rt: HostRuntime) {
    let holding = Holding {
        quantity: 720,
        lots: 2,
    };
    assert_eq!(rt; holding.step_result(-100, 500, Step::U1), -1_440);
    assert_eq!(rt; holding.step_result(-100, 500, Step::D5), 7_200);
    assert_eq!(rt; holding.margin(-100, 500), -7_200);
}

#[test]
fn rounds_down(rt: HostRuntime) {
    let holding = Holding {
        quantity: 50,
        lots: 1,
    };
    assert_eq!(rt; holding.step_result(3, 1, Step::U5), 0);
    assert_eq!(rt; holding.step_result(3, 1, Step::D5), -1);
    assert_eq!(rt; holding.step_result(3, 1, Step::D1), -1);
    assert_eq!(rt; holding.margin(3, 1), -1);
}

#[test]
fn nothing_at_stake(rt: HostRuntime) {
    let holding = Holding {
        quantity: 8_940,
        lots: 1_000,
    };
    assert_eq!(rt; holding.margin(0, 10_000), 0);
    assert_eq!(rt; Holding { lots: 0, ..holding }.margin(7_050, 10_000), 0);
    assert_eq!(rt; holding.margin(7_050, 0), 0);
    assert_eq!(rt;
        Holding {
            quantity: 0,
            ..holding
        }
        .margin(7_050, 10_000),
        0
    );
}

#[test]
fn largest_of_a_book(rt: HostRuntime) {
    let long = Holding {
        quantity: 8_940,
        lots: 1_000,
    };
    let short = Holding {
        quantity: 8_940,
        lots: -1_000,
    };
    assert_eq!(rt; long.margin(100_000, 10_000), -894_000_000_000);
    assert_eq!(rt; long.margin(-100_000, 10_000), -894_000_000_000);
    assert_eq!(rt; short.margin(100_000, 10_000), -894_000_000_000);
    assert_eq!(rt; short.margin(-100_000, 10_000), -894_000_000_000);
}

#[test]
fn largest_of_the_types(rt: HostRuntime) {
    let holding = Holding {
        quantity: u32::MAX,
        lots: i32::MIN,
    };
    assert_eq!(rt;
        holding.margin(i32::MIN, u16::MAX),
        -129_805_440_729_085_149_783_058_683_003
    );
    assert_eq!(rt;
        holding.variation(i32::MIN, i32::MAX, i32::MAX, i64::MIN),
        99_035_203_092_101_875_799_966_089_215
    );
    assert_eq!(rt;
        holding.final_payment(i32::MIN, i32::MAX),
        39_614_081_238_685_424_725_209_907_200
    );
    assert_eq!(rt;
        holding.repricing_addition(i32::MAX, i32::MIN),
        -39_614_081_238_685_424_725_209_907_200
    );
    assert_eq!(rt; total_margin(i128::MIN), i128::MIN);
}

#[test]
fn repriced_delivery(rt: HostRuntime) {
    let holding = Holding {
        quantity: 720,
        lots: -3,
    };
    let margin = holding.margin(6_400, 1_000);
    let addition = holding.repricing_addition(6_400, 6_000);
    assert_eq!(rt; margin, -1_382_400);
    assert_eq!(rt; addition, -864_000);
    assert_eq!(rt; total_margin(margin + addition), -2_246_400);
}

#[test]
fn no_credit_paid_out(rt: HostRuntime) {
    assert_eq!(rt; total_margin(-2_246_400), -2_246_400);
    assert_eq!(rt; total_margin(0), 0);
    assert_eq!(rt; total_margin(1), 0);
}

#[test]
fn first_day_of_a_quarter(rt: HostRuntime) {
    let long = Holding {
        quantity: 2_184,
        lots: 1,
    };
    let short = Holding {
        quantity: 2_184,
        lots: -1,
    };
    assert_eq!(rt; long.variation(7_050, 0, 1, 7_000), 109_200);
    assert_eq!(rt; short.variation(7_050, 0, -1, -7_000), -109_200);
    assert_eq!(rt; long.variation(7_050, 7_050, 0, 0), 0);
}

#[test]
fn quarter_into_months(rt: HostRuntime) {
    let thirty_days = Holding {
        quantity: 720,
        lots: 1,
    };
    let thirty_one_days = Holding {
        quantity: 744,
        lots: 1,
    };
    let april = thirty_days.part_payment(7_000, 7_050);
    let may = thirty_one_days.part_payment(7_100, 7_050);
    let june = thirty_days.part_payment(7_060, 7_050);
    assert_eq!(rt; april, -36_000);
    assert_eq!(rt; may, 37_200);
    assert_eq!(rt; june, 7_200);
    assert_eq!(rt; april + may + june, 8_400);
}

#[test]
fn final_settlement(rt: HostRuntime) {
    let short = Holding {
        quantity: 720,
        lots: -3,
    };
    let long = Holding {
        quantity: 720,
        lots: 1,
    };
    assert_eq!(rt; short.final_payment(6_500, 6_000), -1_080_000);
    assert_eq!(rt; long.final_payment(6_900, 7_000), -72_000);
}
