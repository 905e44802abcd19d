// The lines of a list: hexadecimal numbers with a comma between, byte 10 at the end. A number without digits is 0.
// The same file in styles and registers, and in no library: there it would be public, with a contract.

// Puts the numbers of a line in front of `room`, and answers them; none where the line can't be read, or has more numbers than there is room for.
pub(crate) fn read<'a>(line: &[u8], room: &'a mut [u64]) -> Option<&'a [u64]> {
    let text = line.strip_suffix(b"\n")?;
    let mut count = 0;
    for field in text.split(|byte| *byte == b',') {
        *room.get_mut(count)? = listing::number(field)?;
        count += 1;
    }
    room.get(..count)
}
