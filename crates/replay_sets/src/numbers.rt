// Numbers in a buffer: written and copied, where there is room for them.
use replay::record::Record;
use replay_numbers::lacks;

// The three numbers that follow a record's first argument, from a place on.
pub fn put_three(buffer: &mut [f64], at: usize, record: &Record) -> Option<()> {
    let numbers = [record.argument(1), record.argument(2), record.argument(3)];
    let place = buffer.get_mut(at..)?.first_chunk_mut::<3>()?;
    *place = numbers;
    Some(())
}

// So many numbers from a place on become x.
pub fn fill(buffer: &mut [f64], at: usize, count: usize, x: f64) -> Option<()> {
    buffer.get_mut(at..)?.get_mut(..count)?.fill(x);
    Some(())
}

// So many numbers go from one place on to another. `copy_within` wants both places to be there.
pub fn copy(buffer: &mut [f64], from: usize, to: usize, count: usize) -> Option<()> {
    if lacks(buffer, from, count) || lacks(buffer, to, count) {
        return None;
    }
    buffer.copy_within(from..from + count, to);
    Some(())
}
