// The library's version as one number. Written by tools/generate from VERSION.
ghost use Rattle.std.specs.Prelude.{◌≡◌};

// Major * 10,000 + minor * 100 + patch: a caller holds it against the header's PUMPFENNEL_VERSION_NUMBER.
#[unsafe(no_mangle)]
pub extern "C" fn pumpfennel_version() -> u64
    ensures { result ≡ 502 }
{
    502
}

// The same under a name that changes with the interface: the header and the binding name it, so that what was made for another
// interface doesn't link.
#[unsafe(no_mangle)]
pub extern "C" fn pumpfennel_interface_0_5() -> u64
    ensures { result ≡ 502 }
{
    502
}
