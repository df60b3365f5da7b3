//! The room of lists.
ghost use Rattle.std.specs.Prelude.{◌≡◌};

/// Gives back what isn't used of the room of a list, where that is more than about an eighth of it. A list with room for fewer than eight elements gives nothing back.
pub fn give_back<T>(list: &mut Vec<T>)
    ensures { list.new.items ≡ list.old.items }
{
    if list.len() < list.capacity() / 8 * 7 {
        list.shrink_to_fit();
    }
}
