// No public calls: the test behind refusal 10, and the number of bytes of a table.
ghost use Rattle.std.specs.Prelude.{◌≡◌, ◌^◌, ◌≤◌};
ghost use Rattle.table_size.specs.Cases.{table_allowed};
ghost use Rattle.table_size.specs.Size.{max_table};

// Whether windows of n letters may have a table, by cases on O (document 02, 4/13): a line a case, with the longest window allowed.
pub fn allowed(outputs: usize, n: usize) -> bool
    ensures { result ≡ table_allowed outputs n }
{
    match outputs {
        1 => true,
        2 => n <= 16,
        3 => n <= 10,
        4 => n <= 8,
        5 | 6 => n <= 6,
        7..=9 => n <= 5,
        10..=16 => n <= 4,
        17..=40 => n <= 3,
        41..=64 => n <= 2,
        _ => false,
    }
}

// How many windows of n letters there are: the number of bytes of their table.
pub fn size(outputs: usize, n: usize) -> usize
    requires { (1 ≤ outputs) × (outputs ^ n ≤ max_table) }
    ensures { result ≡ outputs ^ n }
{
    let mut size: usize = 1;
    for _ in 0..n {
        size *= outputs;
    }
    size
}
