// The six fields of a line.
ghost use Rattle.std.specs.Prelude.{◌≡◌, ◌==◌, ◌≢◌, ◌<◌, [], ◌∷◌, length, map, slice_index_or, position, IfSome, MatchOption};
ghost use Rattle.rows.specs.Columns.{place_among};
ghost use Rattle.rows.specs.Fields.{fields};

use crate::column::Column;

// The place of the first comma, if there is one.
fn comma_in(line: &[u8]) -> Option<usize>
    ensures { result ≡ position (λ b. b == 44) line.now }
{
    line.iter().position(|&b| b == b',')
}

// What stands before the first comma and what stands behind it, if there is one.
pub fn cut(line: &[u8]) -> Option<(&[u8], &[u8])>
    ensures { MatchOption result (fields line.now ≡ line.now ∷ []) (λ p. fields line.now ≡ p.0.now ∷ fields p.1.now) }
{
    let comma = comma_in(line)?;
    Some((&line[..comma], &line[comma + 1..]))
}

// The fields borrow the line.
#[derive(Clone, Copy)]
pub(crate) struct Row<'a> {
    fields: [&'a [u8]; 6],
}

impl<'a> Row<'a> {
    // The fields of a line, if it has just six.
    pub(crate) fn of(line: &'a [u8]) -> Option<Self>
        ensures { MatchOption result (length (fields line.now) ≢ 6) (λ r. (map (λ f. f.now) r.fields ≡ fields line.now) × (length (fields line.now) ≡ 6)) }
    {
        let (first, rest) = cut(line)?;
        let (second, rest) = cut(rest)?;
        let (third, rest) = cut(rest)?;
        let (fourth, rest) = cut(rest)?;
        let (fifth, sixth) = cut(rest)?;
        let fields = [first, second, third, fourth, fifth, sixth];
        match cut(sixth) {
            Some(_) => None,
            None => Some(Row { fields }),
        }
    }

    // The field in a place.
    pub(crate) fn at(&self, place: usize) -> &'a [u8]
        requires { place < 6 }
        ensures { result.now ≡ slice_index_or (map (λ f. f.now) self.now.fields) place [] }
    {
        self.fields[place]
    }

    // The first place where a column's name stands.
    pub(crate) fn place_of(&self, column: Column) -> Option<usize>
        ensures bound { IfSome result (λ place. place < 6) }
        ensures place { result ≡ place_among (map (λ f. f.now) self.now.fields) column }
    {
        let name = column.name().as_bytes();
        self.fields.iter().position(|field| *field == name)
    }
}
