// Bodies sorted by their first octets, for a number of links (02, T-02).
use crate::integers;
use crate::show::Case;
use crate::text::{MAX_OCTETS, cut, number, octets};
use diagnosis::{Class, classify};
use std::io::Stdout;

pub fn sorted(case: Case) -> Option<()> {
    let mut out = [0u8; MAX_OCTETS];
    let (links, body) = cut(case.text, b':')?;
    let links = number(links)?;
    let body = octets(body, &mut out)?;
    case.show();
    tell(case.stdout, classify(links, body));
    Some(())
}

fn tell(stdout: Stdout, class: Class) {
    let _ = print!(stdout;
        " = {} {}, step {}, status {}{}",
        class.number(),
        name(class),
        class.step(),
        class.status(),
        integers::cause(class.cause())
    );
}

fn name(class: Class) -> &'static str {
    match class {
        Class::BadLinks => "bad links",
        Class::TooLong => "too long",
        Class::Short => "short",
        Class::BadHeader => "bad header",
        Class::UnsetLink | Class::Stopped(_) => "stopped",
        Class::Noop => "NOOP",
        Class::Reset => "RESET",
        Class::Reaches => "reaches",
    }
}
