//! Run-time packages.
ghost use Rattle.std.specs.Prelude.{◌≡◌};
ghost use Rattle.loader_rules.specs.Packages.{package_of, share_package};

use crate::loader::Loader;

// The name of the package of a class.
fn package_of(name: &[u8]) -> &[u8]
    ensures { result.now ≡ package_of name.now }
{
    let mut front = name;
    loop {
        let [more @ .., last] = front else {
            return front;
        };
        if *last == b'/' {
            return more;
        }
        front = more;
    }
}

/// Whether the class `a`, which the loader `la` defines, has the same run-time package as the class `b`, which `lb`
/// defines: the loaders are the same, and so are the names of the packages, which are all before the last `/` (5.3).
pub fn same_package(a: &[u8], la: Loader, b: &[u8], lb: Loader) -> bool
    ensures { result ≡ share_package a.now la b.now lb }
{
    la == lb && package_of(a) == package_of(b)
}
