// Bytes of a text.
ghost use Rattle.std.specs.Prelude.{◌≡◌, ◌≤◌, length};
ghost use Rattle.climb.specs.Inside.{Found};

// The index of the next such byte from `from` on; none where there is no more.
pub(crate) fn find(s: &[u8], from: usize, stop: u8) -> Option<usize>
    requires { from ≤ length s.now }
    ensures { Found stop s.now from result }
{
    for i in from..s.len() {
        if s[i] == stop {
            return Some(i);
        }
    }
    None
}
