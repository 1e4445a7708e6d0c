//! Rounds and runs on one thread: deliveries in any order, refusals, and who looks on.
#[cfg(test)]
mod calls;
#[cfg(test)]
mod hands;
#[cfg(test)]
mod orders;
#[cfg(test)]
mod rounds;
#[cfg(test)]
mod turns;
#[cfg(test)]
mod watched;
