// Reads a coder file from standard input, at most 1,024 bytes, and writes the report on it.
#![tactic(auto)]

fn main() {
    let mut input = [0u8; 1024];
    let n = io::read_full(0, &mut input);
    let text = report_text::report(&input[..n]);
    io::write_all(1, &text.bytes[..text.len]);
}
