// Moving the end of one list to another.
ghost use Rattle.std.specs.Prelude.{◌≡◌, ◌+◌, ◌≤◌, take, drop, vec_len, vec_capacity};

// Moves what stands from `place` on to `upper`, which is emptied first and has room for it: `split_off` that asks for no memory.
pub fn move_tail<T: Copy>(lower: &mut Vec<T>, place: usize, upper: &mut Vec<T>)
    requires within { place ≤ vec_len lower.old }
    requires room { vec_len lower.old ≤ place + vec_capacity upper.old }
    ensures lower { lower.new.items ≡ take place lower.old.items }
    ensures lower_len { vec_len lower.new ≡ place }
    ensures lower_room { vec_capacity lower.new ≡ vec_capacity lower.old }
    ensures upper { upper.new.items ≡ drop place lower.old.items }
    ensures upper_len { place + vec_len upper.new ≡ vec_len lower.old }
    ensures upper_room { vec_capacity upper.old ≤ vec_capacity upper.new }
{
    upper.clear();
    upper.extend_from_slice(&lower[place..]).unwrap();
    lower.truncate(place);
}
