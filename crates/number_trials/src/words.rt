use ix_words::Job;
use std::alloc::{AllocError, Global};

/// The job of these words.
fn job(alloc: Global, texts: &[&str]) -> Result<Option<Job>, AllocError> {
    let mut words = Vec::new(alloc);
    for text in texts {
        words.push(String::from_str(alloc, text)?)?;
    }
    Ok(Job::of_words(&words))
}

/// Words and their jobs.
const JOBS: [(&[&str], Job); 7] = [
    (
        &["convert"],
        Job::Convert {
            grid: 1000,
            only: None,
            format: 0,
        },
    ),
    (
        &["convert", "--format=obj"],
        Job::Convert {
            grid: 1000,
            only: None,
            format: 0,
        },
    ),
    (
        &["convert", "--only=17", "--format=xyz", "--grid=10000"],
        Job::Convert {
            grid: 10_000,
            only: Some(17),
            format: 3,
        },
    ),
    (&["check"], Job::Check),
    (
        &["gen", "--count=150"],
        Job::Gen {
            count: 150,
            run: false,
        },
    ),
    (
        &["gen", "--count=2", "--run"],
        Job::Gen {
            count: 2,
            run: true,
        },
    ),
    (
        &["gen", "--run", "--count=2"],
        Job::Gen {
            count: 2,
            run: true,
        },
    ),
];

#[test]
fn reads_words(rt: HostRuntime) -> Result<(), AllocError> {
    for (words, want) in &JOBS {
        assert!(rt; job(rt.alloc(), words)? == Some(*want), "at {words:?}");
    }
    Ok(())
}

/// Words that are no job.
const NO_JOBS: [&[&str]; 25] = [
    &[],
    &["convert", "--grid=0"],
    &["convert", "--grid=01"],
    &["convert", "--grid=+1"],
    &["convert", "--grid="],
    &["convert", "--grid=10001"],
    &["convert", "--grid=1 "],
    &["convert", "--Grid=1"],
    &["convert", "--only=1234567890123456789"],
    &["convert", "--format="],
    &["convert", "--format"],
    &["convert", "convert"],
    &["convert", "--grid=1", "--grid=1"],
    &["convert", "--format=obj", "--format=off"],
    &["--grid=1", "convert"],
    &["check", "--grid=1"],
    &["gen", "--count=0"],
    &["gen", "--count=151"],
    &["gen", "--count=02"],
    &["gen", "--grid=1"],
    &["gen"],
    &["gen", "--run"],
    &["gen", "--run", "--run"],
    &["gen", "--count=1", "--count=1"],
    &["gen", "--count=1", "--run", "--run"],
];

#[test]
fn refuses_words(rt: HostRuntime) -> Result<(), AllocError> {
    for words in &NO_JOBS {
        assert!(rt; job(rt.alloc(), words)?.is_none(), "at {words:?}");
    }
    Ok(())
}
