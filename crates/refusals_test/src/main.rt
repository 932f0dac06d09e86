// A smallest text for each number that a plant text, a query text or a query in text can be refused by, with its answer. Numbers 1 to 9, 10
// and 14 cannot arise from text, nor 55 to 59, since the second index is handed in empty.
#![tactic(auto)]

use std::alloc::{AllocError, Global};
use std::io;

const PLANTS: [&str; 7] = [
    "\n",
    "(plant\n(mark 0\n",
    "",
    "(plant\n)\n\n",
    "(plant\n(mark 1\n)\n(mark 1\n",
    "(plant\n(dev 0\n(dev 0\n)\n)\n(mark 1\n(all 1)\n(own 2)\n",
    "(plant\n(mark 32768\n)\n)\n",
];

const QUERIES: [&str; 8] = [
    "\n",
    "(ask\n(need 4294967296)\n",
    "",
    "(ask\n)\n\n",
    "(ask\n(need 1)\n(need 1)\n(need 1)\n(need 1)\n(need 1)\n(need 1)\n(need 1)\n(need 1)\n(need 1)\n",
    "(ask\n(need 0)\n)\n",
    "(ask\n(level 0 0)\n)\n",
    "(ask\n(from 0)\n)\n",
];

fn print_answer<R: Print>(rt: &R, plant: &[u8], query: &[u8]) -> io::Result<()> {
    let mut out = [0; 16384];
    let n = respond::respond(plant, query, &mut out);
    rt.write_all(&out[..n])?;
    println!(rt; "")
}

// Prints what stands for a plant text, and the text's answer.
fn plant<R: Print>(rt: &R, shown: &str, text: &[u8]) -> io::Result<()> {
    print!(rt; "{shown}")?;
    print_answer(rt, text, b"(ask\n)\n")
}

// The same for a query text, over the empty plant.
fn query<R: Print>(rt: &R, shown: &str, text: &[u8]) -> io::Result<()> {
    print!(rt; "{shown}")?;
    print_answer(rt, b"(plant\n)\n", text)
}

// 33 devices, one in the other.
fn deep_plant(alloc: Global) -> Result<String, AllocError> {
    let mut text = String::from_str(alloc, "(plant\n")?;
    for _ in 0..33 {
        text.push_str("(dev 0\n")?;
    }
    Ok(text)
}

// Terms 1 to 257, one more than there is room for, closed but for the last.
fn full_plant(alloc: Global) -> Result<String, AllocError> {
    let mut text = String::from_str(alloc, "(plant\n")?;
    for n in 1..257 {
        write!(text, "(mark {n}\n)\n")?;
    }
    text.push_str("(mark 257\n")?;
    Ok(text)
}

fn main(rt: HostRuntime) -> io::Result<()> {
    let alloc = rt.alloc();
    let long_plant = vec![in alloc; 0; 65537]?;
    plant(&rt, "65,537 bytes\n", &long_plant)?;
    for text in PLANTS {
        plant(&rt, text, text.as_bytes())?;
    }
    let deep = deep_plant(alloc)?;
    plant(&rt, deep.as_str(), deep.as_bytes())?;
    plant(&rt, "257 marks\n", full_plant(alloc)?.as_bytes())?;
    query(&rt, "4,097 bytes\n", &[0; 4097])?;
    for text in QUERIES {
        query(&rt, text, text.as_bytes())?;
    }
    Ok(())
}
