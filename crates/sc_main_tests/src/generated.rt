use sc_main_generate::generate;
use std::alloc::Global;
use std::process::Abort;
use std::test::Fail;

/// What the script of 3 has between its runs and its drawn steps.
const ASKS: &str = "\nrun k049 0 049 - obj=049
ask 0 compile /cc / -- --key k047 --out obj=/o -- a.c
ask 1 compile /cc / -- --key k007 --out obj=/o -- a.c
ask 2 compile /cc / -- --key k015 --out obj=/o -- a.c
read 0 1000000
read 1 1000000
read 2 1000000
read 3 1000000
";

/// Its drawn steps, by what was drawn: a program in another language drew the same.
const DRAWN: &[u8] =
    b"221332231303024434010110223211434430331330211014034311111443244424024420243400041122443104040444121424323213341401430411";

/// Those as lines, behind what stands before them.
fn steps(alloc: Global) -> Result<String, Fail> {
    let mut text = String::from_str(alloc, ASKS)?;
    for drawn in DRAWN {
        let line = match drawn {
            b'0' => "serve 0\n",
            b'1' => "serve 1\n",
            b'2' => "serve 2\n",
            b'3' => "serve 3\n",
            _ => "back 0\n",
        };
        text.push_str(line)?;
    }
    text.push_str("serve 0 60\n")?;
    Ok(text)
}

/// Whether a script is text with this part.
fn has_part(script: &[u8], part: &str) -> bool {
    match std::str::from_utf8(script) {
        Ok(text) => text.contains(part),
        Err(_) => false,
    }
}

#[test]
fn the_script_of_three(rt: HostRuntime) -> Result<(), Fail> {
    let script = generate(rt.alloc(), 3)?;
    let steps = steps(rt.alloc())?;
    assert!(rt;
        script.as_slice().starts_with(
            b"script 1\nconns 4\ntokens 2\npolicy l0\nlevel disk 2000 rw\n"
        )
    );
    assert!(rt; has_part(script.as_slice(), steps.as_str()));
    assert!(rt; script.as_slice().ends_with(b"back 0\nback 0\n"));
    assert_eq!(rt; script.len(), 2994);
    Ok(())
}

#[test]
fn the_largest_script(rt: HostRuntime) -> Result<(), Fail> {
    let script = generate(rt.alloc(), 2000)?;
    assert_eq!(rt; script.len(), 1_013_640);
    Ok(())
}
