//! Cases of images and codes: what is read, the flow, the listing, the verdict.

use crate::fields::{NOTHING, bytes};
use anyhow::{Result, anyhow};
use std::alloc::{AllocError, Global};
use tp_accept::{Refusal, accept};
use tp_decode::{DecodeFault, Listing, MAX_CODE, decode};
use tp_flow::check_flow;
use tp_image::{Image, ImageFault, LoopRow, read_image, write_image};

/// The flow of an image that reads and decodes.
pub(crate) fn flow_case(alloc: Global, asked: &str) -> Result<String> {
    let image = read_image(alloc, &bytes(alloc, asked)?)?;
    let listing = decode(alloc, &image.code)?;
    match check_flow(&image, &listing) {
        Ok(_) => Ok(format!(in alloc; "ok")?),
        Err(fault) => {
            let (code, place) = (fault.code, fault.place);
            Ok(format!(in alloc; "{code} {place}")?)
        }
    }
}

/// Texts with commas between, or a dash for none.
fn listed(alloc: Global, texts: &[String]) -> Result<String, AllocError> {
    if texts.is_empty() {
        return format!(in alloc; "{NOTHING}");
    }
    let mut all = String::new(alloc);
    for text in texts {
        if !all.is_empty() {
            all.push_str(",")?;
        }
        all.push_str(text)?;
    }
    Ok(all)
}

/// The loop rows of an image, as they are spelled.
fn rows(alloc: Global, rows: &[LoopRow]) -> Result<String> {
    let mut texts = Vec::new(alloc);
    for row in rows {
        let LoopRow {
            head,
            lend,
            control,
            count,
            start,
        } = row;
        texts.push(format!(in alloc; "{head}:{lend}:{control}:{count}:{start}")?)?;
    }
    Ok(listed(alloc, &texts)?)
}

/// The initial words of an image.
fn words(alloc: Global, words: &[u32]) -> Result<String> {
    let mut texts = Vec::new(alloc);
    for word in words {
        texts.push(format!(in alloc; "{word}")?)?;
    }
    Ok(listed(alloc, &texts)?)
}

/// The fields of an image.
fn image_text(alloc: Global, image: &Image) -> Result<String> {
    let version = image.version();
    let Image {
        workspace,
        start,
        packet,
        result,
        ..
    } = image;
    let rows = rows(alloc, &image.loops)?;
    let words = words(alloc, &image.initial)?;
    let code = hex::encode(alloc, &image.code)?;
    Ok(format!(in alloc;
        "ok {version} {workspace} {start} {packet} {result} {rows} {words} {code}"
    )?)
}

/// The image that bytes spell, which is written as these bytes again.
pub(crate) fn image_case(alloc: Global, asked: &str) -> Result<String> {
    let text = bytes(alloc, asked)?;
    match read_image(alloc, &text) {
        Ok(image) if write_image(alloc, &image)?.as_slice() == text.as_slice() => image_text(
            alloc, &image,
        ),
        Ok(_) => Ok(format!(in alloc; "written otherwise")?),
        Err(ImageFault::Refused { code, place }) => Ok(format!(in alloc; "{code} {place}")?),
        Err(ImageFault::Memory) => Err(anyhow!("out of memory")),
    }
}

/// The lines of a listing, with bars between.
fn lines(alloc: Global, listing: &Listing) -> Result<String> {
    let mut all = String::new(alloc);
    for i in 0..listing.len() {
        if i > 0 {
            all.push_str("|")?;
        }
        all.push_str(&listing.text(alloc, i)?)?;
    }
    Ok(all)
}

/// The listing of a code.
pub(crate) fn listing_case(alloc: Global, asked: &str) -> Result<String> {
    let code = bytes(alloc, asked)?;
    if code.len() > MAX_CODE {
        return Err(anyhow!("more bytes than a listing has"));
    }
    match decode(alloc, &code) {
        Ok(listing) => lines(alloc, &listing),
        Err(DecodeFault::Refused { code, place }) => Ok(format!(in alloc; "{code} {place}")?),
        Err(DecodeFault::Memory) => Err(anyhow!("out of memory")),
    }
}

/// The verdict on an image.
pub(crate) fn verdict_case(alloc: Global, asked: &str) -> Result<String> {
    match accept(alloc, bytes(alloc, asked)?) {
        Ok(accepted) => {
            let code_bytes = accepted.code().len();
            let budget = accepted.budget();
            Ok(format!(in alloc; "YES {code_bytes} {budget}")?)
        }
        Err(Refusal::Memory) => Err(anyhow!("out of memory")),
        Err(refusal) => {
            let place = refusal.place();
            match refusal.code() {
                Some(code) => Ok(format!(in alloc; "NO {code} {place}")?),
                None => Err(anyhow!("a refusal without a code")),
            }
        }
    }
}
