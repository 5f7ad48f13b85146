//! Folders for tests.
use std::path::PathBuf;
use std::test::Fail;
use std::{env, fs, process};

/// The path of a folder for a test of this name, where nothing is.
pub fn folder_for(rt: &HostRuntime, name: &str) -> Result<String, Fail> {
    let mut path: PathBuf = env::temp_dir(rt)?;
    let id = process::id(rt.process());
    let file = format!(in rt.alloc(); "reg_{id}_{name}")?;
    path.push(file.as_str())?;
    let text = path.as_path().to_str().ok_or("no text")?;
    let folder = String::from_str(rt.alloc(), text)?;
    let _ = fs::remove_dir_all(rt, folder.as_str());
    Ok(folder)
}
