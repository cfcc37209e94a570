use ledger::Call;
use products::Product;
use rows::{Names, Request, SheetFault};

const NAMES: &[u8] = b"call,buyer,seller,class,lots,price";

// What a line asks under a names line.
fn asked(names: &[u8], line: &[u8]) -> Result<Request, SheetFault> {
    Names::of(names)?.request(Product::Power, line)
}

fn trade(lots: i32, price: i32) -> Result<Request, SheetFault> {
    Ok(Request::Book(Call::Trade {
        buyer: 0,
        seller: 1,
        class: 3,
        lots,
        price,
    }))
}

#[test]
fn every_call(rt: HostRuntime) {
    assert_eq!(rt; asked(NAMES, b"trade,0,1,Q01,1,7000"), trade(1, 7000));
    let (class, price) = (0, 5);
    let mark = Request::Book(Call::Mark { class, price });
    assert_eq!(rt; asked(NAMES, b"mark,,,M01,,5"), Ok(mark));
    let reprice = Request::Book(Call::Reprice { class: 10, price });
    assert_eq!(rt; asked(NAMES, b"reprice,,,D02,,5"), Ok(reprice));
    let settle = Request::Book(Call::Settle { price, room: 32 });
    assert_eq!(rt; asked(NAMES, b"settle,,,,,5"), Ok(settle));
    assert_eq!(rt;
        asked(NAMES, b"margins,7,,,,"),
        Ok(Request::Margins { account: 7 })
    );
    assert_eq!(rt;
        asked(NAMES, b"close,,,,,"),
        Ok(Request::Book(Call::Close { room: 32 }))
    );
}

#[test]
fn names_lines(rt: HostRuntime) {
    let permuted = b"price,lots,class,seller,buyer,call";
    assert_eq!(rt; asked(permuted, b"7000,1,Q01,1,0,trade"), trade(1, 7000));
    let fault = Some(SheetFault::ColumnNames);
    assert_eq!(rt; Names::of(b"").err(), fault);
    assert_eq!(rt;
        Names::of(b"call,buyer,seller,class,lots,lots").err(),
        fault
    );
    assert_eq!(rt;
        Names::of(b"call,buyer,seller,class,lots,price,price").err(),
        fault
    );
    assert_eq!(rt;
        Names::of(b"call,buyer,seller,class,lots,price\r").err(),
        fault
    );
    assert_eq!(rt;
        Names::of(b"call,\"buyer\",seller,class,lots,price").err(),
        fault
    );
    assert_eq!(rt;
        Names::of(b"call,buyer,seller,class,lots,Price").err(),
        fault
    );
}

#[test]
fn counted_values(rt: HostRuntime) {
    let fault = Err(SheetFault::ValueCount);
    assert_eq!(rt; asked(NAMES, b""), fault);
    assert_eq!(rt; asked(NAMES, b"close,,,,"), fault);
    assert_eq!(rt; asked(NAMES, b"close,,,,,,"), fault);
}

#[test]
fn unknown_calls(rt: HostRuntime) {
    let fault = Err(SheetFault::UnknownCall);
    assert_eq!(rt; asked(NAMES, b",,,,,"), fault);
    assert_eq!(rt; asked(NAMES, b"Close,,,,,"), fault);
    assert_eq!(rt; asked(NAMES, b"close ,,,,,"), fault);
    assert_eq!(rt; asked(NAMES, b"\"close\",,,,,"), fault);
    assert_eq!(rt; asked(NAMES, b"\xff\x80,,,,,"), fault);
}

#[test]
fn filled_fields(rt: HostRuntime) {
    let fault = Err(SheetFault::FieldsFilled);
    assert_eq!(rt; asked(NAMES, b"close,,,,,\r"), fault);
    assert_eq!(rt; asked(NAMES, b"margins,,,,,"), fault);
    assert_eq!(rt; asked(NAMES, b"settle,,,D02,,5"), fault);
    assert_eq!(rt; asked(NAMES, b"trade,0,1,Q01,,7000"), fault);
}

#[test]
fn numbers(rt: HostRuntime) {
    let fault = Err(SheetFault::NotANumber);
    assert_eq!(rt; asked(NAMES, b"trade,00,01,Q01,007,-0"), trade(7, 0));
    assert_eq!(rt;
        asked(NAMES, b"trade,0,1,Q01,999999999,-999999999"),
        trade(999_999_999, -999_999_999)
    );
    assert_eq!(rt; asked(NAMES, b"trade,0,1,Q01,1000000000,1"), fault);
    assert_eq!(rt; asked(NAMES, b"trade,0,1,Q01,1,-1000000000"), fault);
    assert_eq!(rt; asked(NAMES, b"trade,0,1,Q01,-1,7000"), fault);
    assert_eq!(rt; asked(NAMES, b"settle,,,,,--1"), fault);
    assert_eq!(rt; asked(NAMES, b"settle,,,,,-"), fault);
    assert_eq!(rt; asked(NAMES, b"settle,,,,,+1"), fault);
    assert_eq!(rt; asked(NAMES, b"settle,,,,,1\r"), fault);
    assert_eq!(rt; asked(NAMES, b"settle,,,,,\xb2"), fault);
}

#[test]
fn classes(rt: HostRuntime) {
    assert_eq!(rt;
        asked(NAMES, b"mark,,,T01,,5"),
        Err(SheetFault::UnknownClass)
    );
    assert_eq!(rt;
        asked(NAMES, b"mark,,,m01,,5"),
        Err(SheetFault::UnknownClass)
    );
    assert_eq!(rt; asked(NAMES, b"mark,,,m01,,x"), Err(SheetFault::NotANumber));
}

#[test]
fn fault_numbers(rt: HostRuntime) {
    assert_eq!(rt; SheetFault::TooLong.number(), 29);
    assert_eq!(rt; SheetFault::UnknownClass.number(), 35);
}
