// The number of this interface: the calls, their records and the refusals that they can give. A caller compares it with
// the number of the header that it was built with, LBQ_VERSION of include/lbq.h. Records in memory carry no number of
// their own, so any change of them is a new one.
ghost use Rattle.std.specs.Prelude.{◌≡◌};
ghost use Rattle.lbq.specs.Version.{version};

#[unsafe(no_mangle)]
pub extern "C" fn lbq_version() -> u32
    ensures { result ≡ version }
{
    1
}
