// What a line of values asks.
ghost use Rattle.std.specs.Prelude.{◌≡◌, ℕ, List, Ok};
ghost use Rattle.rows.specs.Columns.{names_of};
ghost use Rattle.rows.specs.Requests.{asked, request, request_under};
ghost use Rattle.rows.specs.Values.{value};

use crate::call_name::CallName;
use crate::column::Column;
use crate::fault::SheetFault;
use crate::names::Names;
use crate::row::Row;
use crate::values::Values;
use ledger::Call;
use products::Product;

#[derive(Clone, Copy, PartialEq, Eq, Debug)]
pub enum Request {
    // A call that changes the book.
    Book(Call),
    // The margins of an account.
    Margins { account: u32 },
}

// The lines of the payment list that the sheet lends: enough for every book.
const ROOM: usize = 32;

impl Values<'_> {
    // What a call of this name asks: first for all its numbers, then for its class.
    fn asked(&self, product: Product, call: CallName) -> Result<Request, SheetFault>
        ensures { result ≡ asked product call (value self.now) }
    {
        match call {
            CallName::Trade => {
                let buyer = self.number(Column::Buyer)?;
                let seller = self.number(Column::Seller)?;
                let lots = self.number(Column::Lots)? as i32;
                let price = self.price()?;
                let class = self.class(product)?;
                Ok(Request::Book(Call::Trade {
                    buyer,
                    seller,
                    class,
                    lots,
                    price,
                }))
            }
            CallName::Mark => {
                let price = self.price()?;
                let class = self.class(product)?;
                Ok(Request::Book(Call::Mark { class, price }))
            }
            CallName::Reprice => {
                let price = self.price()?;
                let class = self.class(product)?;
                Ok(Request::Book(Call::Reprice { class, price }))
            }
            CallName::Settle => {
                let price = self.price()?;
                Ok(Request::Book(Call::Settle { price, room: ROOM }))
            }
            CallName::Margins => {
                let account = self.number(Column::Buyer)?;
                Ok(Request::Margins { account })
            }
            CallName::Close => Ok(Request::Book(Call::Close { room: ROOM })),
        }
    }
}

impl Names {
    // What a line of values asks, or the first question that is answered no.
    #[tactic(auto, unfolding(crate::specs::Requests::request))]
    pub fn request(&self, product: Product, line: &[u8]) -> Result<Request, SheetFault>
        ensures request { result ≡ request product self.now.places line.now }
        ensures under { (names : List ℕ) → names_of names ≡ Ok self.now.places → result ≡ request_under product names line.now }
    {
        let row = Row::of(line).ok_or(SheetFault::ValueCount)?;
        let values = Values { names: *self, row };
        let call = CallName::of(values.field(Column::Call)).ok_or(SheetFault::UnknownCall)?;
        if !values.has_just(call.needed()) {
            return Err(SheetFault::FieldsFilled);
        }
        values.asked(product, call)
    }
}
