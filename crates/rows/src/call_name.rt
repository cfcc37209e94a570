// The calls of a sheet by name, and the fields that each needs.
ghost use Rattle.std.specs.Prelude.{◌≡◌};
ghost use Rattle.rows.specs.CallNames.{call_named, needed};

use crate::column::Column;

#[derive(Clone, Copy, PartialEq, Eq, Debug)]
pub(crate) enum CallName {
    Trade,
    Mark,
    Reprice,
    Settle,
    Margins,
    Close,
}

impl CallName {
    // The call with just this name.
    pub(crate) fn of(name: &[u8]) -> Option<CallName>
        ensures { result ≡ call_named name.now }
    {
        match name {
            b"trade" => Some(CallName::Trade),
            b"mark" => Some(CallName::Mark),
            b"reprice" => Some(CallName::Reprice),
            b"settle" => Some(CallName::Settle),
            b"margins" => Some(CallName::Margins),
            b"close" => Some(CallName::Close),
            _ => None,
        }
    }

    // The fields that the call needs.
    pub(crate) fn needed(self) -> &'static [Column]
        ensures { result.now ≡ needed self }
    {
        match self {
            CallName::Trade => &[
                Column::Buyer,
                Column::Seller,
                Column::Class,
                Column::Lots,
                Column::Price,
            ],
            CallName::Mark | CallName::Reprice => &[Column::Class, Column::Price],
            CallName::Settle => &[Column::Price],
            CallName::Margins => &[Column::Buyer],
            CallName::Close => &[],
        }
    }
}
