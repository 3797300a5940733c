// Numbers in columns.
ghost use Rattle.std.specs.Prelude.{◌≡◌, [], ◌∷◌, ◌++◌, ◌+◌, ◌≤◌, length};
ghost use Rattle.std.proofs.lemmas.List.Edits.{sets};
ghost use Rattle.history_text.specs.Decimals.{decimal};
ghost use Rattle.history_sheet.specs.Sheet.{aligned};

// Puts the digits of n at the end of the w columns from index at on, and spaces before them.
fn put_number(out: &mut [u8], at: usize, w: usize, n: u64)
    requires { (at + w ≤ length out.old) × (length (decimal n) ≤ w) }
    ensures { out.new ≡ sets out.old at (aligned w (decimal n)) }
{
    let mut x = n;
    let mut k = w;
    // No `for`: the digits may end before the columns do.
    while 10 <= x {
        out[at + (k - 1)] = (x % 10 + 48) as u8;
        x = x / 10;
        k -= 1;
    }
    area::fill(out, at, k - 1, 32);
    out[at + (k - 1)] = (x + 48) as u8;
}

// The same, and the byte end after the number.
pub fn put_field(out: &mut [u8], at: usize, w: usize, n: u64, end: u8)
    requires { (at + w + 1 ≤ length out.old) × (length (decimal n) ≤ w) }
    ensures { out.new ≡ sets out.old at (aligned w (decimal n) ++ (end ∷ [])) }
{
    put_number(out, at, w, n);
    out[at + w] = end;
}
