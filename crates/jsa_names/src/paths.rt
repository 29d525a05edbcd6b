//! The path of a class's file in a folder.
ghost use Rattle.std.specs.Prelude.{◌≡◌, ◌++◌, IfOk, codes};
ghost use Rattle.std.specs.Option.{option_map};
ghost use Rattle.std.specs.String.{string_bytes};
ghost use Rattle.jsa_names.specs.Paths.{has_null, is_path_name, text_of, path_of};

use crate::names::is_class_name;
use crate::texts::{is_mutf8, utf16};
use std::alloc::{AllocError, Global};

fn has_null(units: &[u16]) -> bool
    ensures { result ≡ has_null units.now }
{
    units.iter().any(|u| *u == 0)
}

fn is_path_name(name: &[u8], units: &[u16]) -> bool
    ensures { result ≡ is_path_name name.now units.now }
{
    is_class_name(name) && !has_null(units)
}

// The text of a name of a class.
fn text_of(alloc: Global, name: &[u8]) -> Result<Option<String>, AllocError>
    ensures { IfOk result (λ text. option_map string_bytes text ≡ text_of name.now) }
{
    if !is_mutf8(name) {
        return Ok(None);
    }
    let units = utf16(alloc, name)?;
    if !is_path_name(name, &units) {
        return Ok(None);
    }
    let Ok(text) = String::from_utf16(alloc, &units)? else {
        return Ok(None);
    };
    Ok(Some(text))
}

fn joined(alloc: Global, folder: &str, text: &str) -> Result<String, AllocError>
    ensures { IfOk result (λ path. string_bytes path ≡ folder.now ++ codes "/" ++ text.now ++ codes ".class") }
{
    let mut path = String::from_str(alloc, folder)?;
    path.push_str("/")?;
    path.push_str(text)?;
    path.push_str(".class")?;
    Ok(path)
}

/// The path `FOLDER/NAME.class` of the file of a class, with the name in UTF-8: a pair of surrogates, which a name
/// has in six bytes, is one character of four bytes there. `None` exactly where a name is found nowhere: where it is
/// no modified UTF-8 or no name of a class, or has U+0000 or a surrogate without a partner.
#[tactic(auto, unfolding(crate::specs::Paths::path_of))]
pub fn path_of(alloc: Global, folder: &str, name: &[u8]) -> Result<Option<String>, AllocError>
    ensures { IfOk result (λ path. option_map string_bytes path ≡ path_of folder.now name.now) }
{
    let Some(text) = text_of(alloc, name)? else {
        return Ok(None);
    };
    let path = joined(alloc, folder, &text)?;
    Ok(Some(path))
}
