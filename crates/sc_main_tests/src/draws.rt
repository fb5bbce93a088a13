use sc_entry::NoMemory;
use sc_main_generate::{drawn, next};
use std::alloc::Global;
use std::test::Fail;

/// What is drawn first from a number, as a program in another language drew it.
type Row = (u64, [u64; 20]);

const ROWS: [Row; 3] = [
    (
        1,
        [
            16838, 5758, 10113, 17515, 31051, 5627, 23010, 7419, 16212, 4086, 2749, 12767, 9084,
            12060, 32225, 17543, 25089, 21183, 25137, 25566,
        ],
    ),
    (
        7,
        [
            19564, 9806, 10868, 22674, 32531, 3365, 32034, 31790, 7985, 10913, 11213, 25363, 29630,
            25874, 749, 322, 14185, 23654, 19150, 7460,
        ],
    ),
    (
        2000,
        [
            23876, 27186, 32086, 26917, 27054, 27534, 20293, 17021, 240, 11901, 26456, 31125, 6045,
            26723, 14961, 9037, 23889, 19829, 7460, 509,
        ],
    ),
];

/// The first twenty draws from a number below 2,147,483,648.
fn draws(alloc: Global, number: u64) -> Result<Vec<u64>, NoMemory> {
    let mut draws = Vec::new(alloc);
    let mut state = number % 2_147_483_648;
    for _ in 0..20 {
        state = next(state);
        draws.push(drawn(state))?;
    }
    Ok(draws)
}

#[test]
fn the_first_twenty_draws(rt: HostRuntime) -> Result<(), Fail> {
    for row in &ROWS {
        let draws = draws(rt.alloc(), row.0)?;
        assert_eq!(rt; draws.as_slice(), row.1.as_slice());
    }
    Ok(())
}
