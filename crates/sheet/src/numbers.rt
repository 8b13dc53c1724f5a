// The numbers of cells: by location, and then by letter.
ghost use Rattle.std.specs.Prelude.{◌≡◌, ◌+◌, ◌*◌, ◌&&◌, Some, None, cond, nat_lt};

use inspect::head::Head;

// The cell of a location and a letter, where there are so many letters.
pub fn cell_number(letters: u8, location: u8, letter: u8) -> usize
    ensures { result ≡ location * letters + letter }
{
    usize::from(location) * usize::from(letters) + usize::from(letter)
}

// None past the head's locations and letters. The head stays where it is, since a search asks this for every slot.
pub(crate) fn known_cell(head: &Head, location: u8, letter: u8) -> Option<usize>
    ensures { result ≡ cond (nat_lt location head.now.locations && nat_lt letter head.now.letters) (Some (location * head.now.letters + letter)) None }
{
    let known = location < head.locations && letter < head.letters;
    known.then_some(cell_number(head.letters, location, letter))
}
