//! The three class loaders, their folders, and what they find.
ghost use Rattle.std.specs.Prelude.{◌≡◌};
ghost use Rattle.loader_rules.specs.Lists.{are_lists};

use jsa_files::Names;
use std::marker::Model;

/// A class loader (JVM Specification SE 8, 5.3). Each one asks the folders of those before it first.
#[derive(Clone, Copy, Debug, PartialEq, Eq)]
pub enum Loader {
    Boot,
    Platform,
    App,
}

/// The folders of each loader, by their paths as they were written, in the order in which they are asked. There are at
/// most one boot and one platform folder, and fewer than 2^32 - 1 application folders.
///
/// Contracts see them as the three lists. The folders have numbers: boot 0, platform 1, and application those from 2 on.
#[derive(Drop)]
pub struct Paths {
    pub boot: Names,
    pub platform: Names,
    pub app: Names,
}

impl Model for Paths {
    ghost use Rattle.std.specs.Prelude.{IsTrue};
    ghost use Rattle.loader_rules.specs.Lists.{FolderLists, lists_code, are_lists};

    ghost Value = { FolderLists };

    ghost coded = { lists_code };

    ghost view = { λ p. record { boot = p.boot; platform = p.platform; app = p.app } };

    ghost invariant = { λ p. IsTrue (are_lists (record { boot = p.boot; platform = p.platform; app = p.app })) };
}

fn are_lists(boot: &Names, platform: &Names, app: &Names) -> bool
    ensures { result ≡ are_lists (record { boot = boot.now; platform = platform.now; app = app.now }) }
{
    boot.len() < 2 && platform.len() < 2 && app.len() < 0xffff_ffff
}

impl Paths {
    ghost use Rattle.std.specs.Prelude.{◌≡◌, false, true, MatchOption};
    ghost use Rattle.loader_rules.specs.Lists.{are_lists};

    /// The folders of these lists. `None` exactly where there are too many: two boot or platform folders, or 2^32 - 1
    /// application folders.
    pub fn new(boot: Names, platform: Names, app: Names) -> Option<Paths>
        ensures { MatchOption result (are_lists (record { boot = boot; platform = platform; app = app }) ≡ false)
            (λ paths. (are_lists paths ≡ true) × (paths ≡ record { boot = boot; platform = platform; app = app })) }
    {
        if !are_lists(&boot, &platform, &app) {
            return None;
        }
        Some(Paths {
            boot,
            platform,
            app,
        })
    }
}

/// The file that a loader found for the name of a class.
#[derive(Drop)]
pub struct Found {
    /// The loader whose folder has it: the one that defines the class.
    pub loader: Loader,
    /// The folder's number.
    pub folder: u32,
    /// The bytes of the file.
    pub bytes: Vec<u8>,
}
