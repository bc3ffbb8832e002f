// The library's version, exported: a program asks it at run time, and so knows which library it met.
ghost use Rattle.std.specs.Prelude.{◌≡◌};
ghost use Rattle.cabi.specs.Version.{version};

// Version 1.0.0.
pub const VERSION: u32 = 10000;

#[unsafe(no_mangle)]
pub extern "C" fn jorumrain_version() -> u32
    ensures { result ≡ version }
{
    VERSION
}
