// The numbers that cross are 32 bits wide; the portal takes a code of 8 bits and sizes of 16. A larger number becomes
// the largest of that width, which is no code and fits nothing, so it means what the number meant:
// proofs/Narrowed.antt. One function for each width: one for both would be longer than the two.
ghost use Rattle.std.specs.Prelude.{◌≡◌};
ghost use Rattle.lbq.specs.Narrow.{narrow_code, narrow_size};

#[tactic(auto, using(crate::proofs::Narrowed::min_is))]
pub fn code(n: u32) -> u8
    ensures { result ≡ narrow_code n }
{
    n.min(255) as u8
}

#[tactic(auto, using(crate::proofs::Narrowed::min_is))]
pub fn size(n: u32) -> u16
    ensures { result ≡ narrow_size n }
{
    n.min(65535) as u16
}
