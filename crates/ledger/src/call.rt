// The calls that change a book, with every input of their methods, wrong values included.

#[derive(Clone, Copy, PartialEq, Eq, Debug)]
pub enum Call {
    // Lots of a class go from the seller to the buyer, at a price.
    Trade {
        buyer: u32,
        seller: u32,
        class: u32,
        lots: i32,
        price: i32,
    },
    // The day's price of a class.
    Mark {
        class: u32,
        price: i32,
    },
    // A new price of a delivery class, for margins only.
    Reprice {
        class: u32,
        price: i32,
    },
    // The final price of the settling class; the payment list has this many lines.
    Settle {
        price: i32,
        room: usize,
    },
    // The end of the day; the payment list has this many lines.
    Close {
        room: usize,
    },
}
