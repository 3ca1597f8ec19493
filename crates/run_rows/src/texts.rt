//! What is printed of errors that no script comes to.

use my_frame::{NoMemory, Text};
use my_opts_parts::UrlError;
use my_reading::{DriverError, Error, OtherError};
use my_script::{Outcome, StepAnswer, Transcript, text_of};
use std::alloc::Global;
use std::test::Fail;

const LINES: &str = "\
1 error Driver TooLong
2 error Driver PoolDisconnected
3 error Driver PoolFull 2 1
4 error Driver CantParseServerVersion
5 error Driver PacketOutOfOrder
6 error Driver PacketTooLarge
7 error Driver BadCompressedPacketHeader
8 error Driver NoKeyFound
9 error Driver NamedPipesDisabled
10 error Driver InvalidParsecSalt
11 error Driver NoClientSslFlagFromServer
12 error Url Invalid
13 error Url Parse
14 error Url InvalidPoolConstraints 10 5
15 error Url UnsupportedScheme b:73716c
16 error Url UnknownParameter b:626172
17 error Url InvalidParamValue b:626172 b:
18 error Url FeatureRequired b:746c73 b:626172
19 error Other b:6e6f
20 error NoMemory
end
";

fn driver_error(number: u64) -> DriverError {
    match number {
        1 => DriverError::TooLong,
        2 => DriverError::PoolDisconnected,
        3 => DriverError::PoolFull {
            waiting: 2,
            limit: 1,
        },
        4 => DriverError::CantParseServerVersion,
        5 => DriverError::PacketOutOfOrder,
        6 => DriverError::PacketTooLarge,
        7 => DriverError::BadCompressedPacketHeader,
        8 => DriverError::NoKeyFound,
        9 => DriverError::NamedPipesDisabled,
        10 => DriverError::InvalidParsecSalt,
        _ => DriverError::NoClientSslFlagFromServer,
    }
}

fn push(alloc: Global, answers: &mut Vec<StepAnswer>, error: Error) -> Result<(), NoMemory> {
    let number = (answers.len() as u64).wrapping_add(1);
    let answer = StepAnswer {
        number,
        outcome: Outcome::Failed(error),
        uses: Vec::new(alloc),
    };
    Ok(answers.push(answer)?)
}

fn push_url_errors(alloc: Global, answers: &mut Vec<StepAnswer>) -> Result<(), NoMemory> {
    push(alloc, answers, Error::Url(UrlError::Invalid))?;
    push(alloc, answers, Error::Url(UrlError::Parse))?;
    let pool = UrlError::InvalidPoolConstraints { min: 10, max: 5 };
    push(alloc, answers, Error::Url(pool))?;
    let scheme = Text::from_str(alloc, "sql")?;
    push(
        alloc,
        answers,
        Error::Url(UrlError::UnsupportedScheme { scheme }),
    )?;
    let param = Text::from_str(alloc, "bar")?;
    push(
        alloc,
        answers,
        Error::Url(UrlError::UnknownParameter { param }),
    )?;
    let param = Text::from_str(alloc, "bar")?;
    let value = Text::new(alloc);
    push(
        alloc,
        answers,
        Error::Url(UrlError::InvalidParamValue { param, value }),
    )?;
    let feature = Text::from_str(alloc, "tls")?;
    let param = Text::from_str(alloc, "bar")?;
    push(
        alloc,
        answers,
        Error::Url(UrlError::FeatureRequired { feature, param }),
    )
}

fn push_errors(alloc: Global, answers: &mut Vec<StepAnswer>) -> Result<(), NoMemory> {
    for number in 1..12 {
        push(alloc, answers, Error::Driver(driver_error(number)))?;
    }
    push_url_errors(alloc, answers)?;
    let text = Text::from_str(alloc, "no")?;
    push(alloc, answers, Error::Other(OtherError { text }))?;
    push(alloc, answers, Error::NoMemory)
}

fn text_of_errors(alloc: Global) -> Result<Vec<u8>, NoMemory> {
    let mut answers = Vec::new(alloc);
    let pushed = push_errors(alloc, &mut answers);
    let transcript = Transcript {
        answers,
        tapes: Vec::new(alloc),
    };
    let text = text_of(alloc, &transcript);
    drop(transcript);
    pushed?;
    text
}

#[test]
fn errors_of_no_script(rt: HostRuntime) -> Result<(), Fail> {
    let text = text_of_errors(rt.alloc())?;
    assert!(rt; text.as_slice() == LINES.as_bytes());
    Ok(())
}
