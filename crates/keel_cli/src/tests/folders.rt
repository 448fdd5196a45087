// Runs over folders of the host.
use crate::tests::output_over;
use keel_base::Bytes;
use keel_dirdisk::DirDisk;
use std::test::Fail;
use std::{env, fs, process};

// A path of this process's own.
fn own_path(rt: &HostRuntime, name: &str) -> Result<String, Fail> {
    let place = env::temp_dir(rt)?;
    let own = process::id(rt.process());
    Ok(format!(in rt.alloc(); "{}/keel_cli_{own}_{name}", place.as_str())?)
}

// The output of a workload over a folder, with so many bytes for it.
fn output_in(rt: &HostRuntime, path: &str, budget: u64, input: &[u8]) -> Result<Bytes, Fail> {
    let device = DirDisk::new(rt, String::from_str(rt.alloc(), path)?, budget);
    output_over(rt.alloc(), input, device)
}

#[test]
fn a_folder_survives_the_run(rt: HostRuntime) -> Result<(), Fail> {
    let path = own_path(&rt, "kept")?;
    fs::create_dir(&rt, path.as_str())?;
    // A manifest of 40 bytes, CURRENT of 16 and a log of 24.
    let out = output_in(&rt, path.as_str(), 80, b"open\ndrain 100\nput a 1 sync\n")?;
    assert_eq!(rt; out.as_slice(), b"opened 0\nquiet\nok 1\n".as_slice());
    let out = output_in(&rt, path.as_str(), 80, b"open\nget a\ncrash 0 0 0 1\n")?;
    assert_eq!(rt;
        out.as_slice(),
        b"opened 1\nvalue 1\nnot-simulated\n".as_slice()
    );
    fs::remove_dir_all(&rt, path.as_str())?;
    Ok(())
}
