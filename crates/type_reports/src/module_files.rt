//! The files in which the items of a module may stand.

ghost use Rattle.std.specs.Prelude.{◌≡◌, ◌++◌, IfOk, OnOk, codes, map, string_bytes};
ghost use Rattle.type_reports.specs.ModuleFiles.{file_name, files_by, folder_by, module_files, path_in};

use std::alloc::{AllocError, Global};

/// A module by its name, and what `#[path = ".."]` says at it.
#[derive(Clone, Copy)]
pub(crate) struct ModuleName<'a> {
    pub(crate) name: &'a str,
    pub(crate) path: Option<&'a str>,
}

/// The name of a module in the names of files, which have no `r#`.
pub(crate) fn file_name(name: &str) -> &str
    ensures { result.now ≡ file_name name.now }
{
    match name.strip_prefix("r#") {
        Some(bare) => bare,
        None => name,
    }
}

/// Writes a path in a folder, whose name is written and ends with `/`; an absolute one stands for itself.
fn write_path(out: &mut String, path: &str) -> Result<(), AllocError>
    ensures { OnOk result (string_bytes out.new ≡ path_in (string_bytes out.old) path.now) }
{
    if path.starts_with('/') {
        out.clear();
    }
    out.push_str(path)
}

/// Writes the name of a module among those of a file's modules, whose folder is written.
fn write_name(out: &mut String, own: &str, name: &str, end: &str) -> Result<(), AllocError>
    ensures { OnOk result (string_bytes out.new ≡
        string_bytes out.old ++ own.now ++ file_name name.now ++ end.now) }
{
    out.push_str(own)?;
    out.push_str(file_name(name))?;
    out.push_str(end)
}

/// Writes the folder of an inline module, behind that of what it stands in.
fn enter(folder: &mut String, own: &str, outer: ModuleName<'_>) -> Result<(), AllocError>
    ensures { OnOk result (string_bytes folder.new ≡
        folder_by (string_bytes folder.old) own.now outer.entry.name.now outer.entry.path) }
{
    match outer.path {
        Some(path) => {
            write_path(folder, path)?;
            folder.push_str("/")
        }
        None => write_name(folder, own, outer.name, "/"),
    }
}

/// A file of a module in this folder, which its name and what stands behind it make.
fn named_file(
    alloc: Global,
    folder: &str,
    own: &str,
    name: &str,
    end: &str,
) -> Result<String, AllocError>
    ensures { IfOk result (λ file. string_bytes file ≡
        folder.now ++ own.now ++ file_name name.now ++ end.now) }
{
    let mut file = String::from_str(alloc, folder)?;
    write_name(&mut file, own, name, end)?;
    Ok(file)
}

/// The file in this folder that a `path` says.
fn said_file(alloc: Global, folder: &str, path: &str) -> Result<String, AllocError>
    ensures { IfOk result (λ file. string_bytes file ≡ path_in folder.now path.now) }
{
    let mut file = String::from_str(alloc, folder)?;
    write_path(&mut file, path)?;
    Ok(file)
}

/// The files in which a module's items may stand that stands in no inline module.
fn files_in(
    alloc: Global,
    folder: &str,
    own: &str,
    module: ModuleName<'_>,
) -> Result<Vec<String>, AllocError>
    ensures { IfOk result (λ files. map string_bytes files.items ≡
        files_by folder.now own.now «module».entry.name.now «module».entry.path) }
{
    let mut files = Vec::new(alloc);
    match module.path {
        Some(path) => files.push(said_file(alloc, folder, path)?)?,
        None => {
            files.push(named_file(alloc, folder, own, module.name, ".rs")?)?;
            files.push(named_file(alloc, folder, own, module.name, "/mod.rs")?)?;
        }
    }
    Ok(files)
}

/// The files in which a module's items may stand, in the order in which they are looked for. It stands within these inline
/// modules of a file, the outermost first; the file stands in this folder, whose name ends with `/` or is empty, and its
/// own modules in a folder within that, whose name does so too.
pub(crate) fn module_files(
    alloc: Global,
    folder: &str,
    own: &str,
    inline: &[ModuleName<'_>],
    module: ModuleName<'_>,
) -> Result<Vec<String>, AllocError>
    ensures { IfOk result (λ files. map string_bytes files.items ≡
        module_files folder.now own.now inline.now «module».entry) }
{
    let mut at = String::from_str(alloc, folder)?;
    let mut within = own;
    for outer in inline {
        enter(&mut at, within, *outer)?;
        within = "";
    }
    files_in(alloc, at.as_str(), within, module)
}
