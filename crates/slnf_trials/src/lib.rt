//! Worked runs of plans: what becomes of each packet is written out by hand, and the loops that run a plan, threads and
//! the journal alone tell it. So are the lines of the ordinary box of some of them. Of many runs in threads check and box
//! tell whether they are true.
#![tactic(auto)]

#[cfg(test)]
mod box_cases;
#[cfg(test)]
mod captures;
#[cfg(test)]
mod cases;
#[cfg(test)]
mod entries;
#[cfg(test)]
mod gates;
#[cfg(test)]
mod lanes;
#[cfg(test)]
mod letters;
#[cfg(test)]
mod runs;
#[cfg(test)]
mod tests;
#[cfg(test)]
mod threads;
