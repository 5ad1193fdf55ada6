ghost use Rattle.std.specs.Prelude.{◌≡◌, ◌≤◌, ◌<◌};
ghost use Rattle.circulant_plan.specs.Ring.{order_of, half_of};

/// The machine that works on chunk `d` in step `s`, of `p` machines. The owner `d` is the last.
pub fn order(d: u8, s: u8, p: u8) -> u8
    requires chunk { d < p }
    requires step { s < p }
    ensures { result ≡ order_of d s p }
{
    ((u16::from(d) + 1 + u16::from(s)) % u16::from(p)) as u8
}

/// Where half `h` of the chunk from `start` to `end` starts and ends.
pub fn half(start: u32, end: u32, h: u8) -> (u32, u32)
    requires rises { start ≤ end }
    requires half { h ≤ 1 }
    ensures { result ≡ half_of start end h }
{
    let size = end - start;
    let cut = start + size / 2 + size % 2;
    if h == 0 { (start, cut) } else { (cut, end) }
}
