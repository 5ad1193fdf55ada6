/// Writes words at the end of bytes, eight bytes each and the low ones first, whatever their number.
/// Stands in the body of a function that passes want of memory on.
#[macro_export]
macro_rules! lay_words {
    ($bytes:expr, $words:expr) => {
        for word in $words {
            $bytes.extend_from_slice(&word.to_le_bytes())?;
        }
    };
}

/// Calls a function at the width that a number names, from 0 to 8: `by_width!(n, f::<_>(x, y), else z)` is `f::<2>(x, y)`
/// where n is 2, and z where it is above 8.
#[macro_export]
macro_rules! by_width {
    ($width:expr, $function:ident::<_>($($argument:expr),*), else $other:expr) => {
        match $width {
            0 => $function::<0>($($argument),*),
            1 => $function::<1>($($argument),*),
            2 => $function::<2>($($argument),*),
            3 => $function::<3>($($argument),*),
            4 => $function::<4>($($argument),*),
            5 => $function::<5>($($argument),*),
            6 => $function::<6>($($argument),*),
            7 => $function::<7>($($argument),*),
            8 => $function::<8>($($argument),*),
            _ => $other,
        }
    };
}
