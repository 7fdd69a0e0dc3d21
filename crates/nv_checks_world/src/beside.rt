//! Tests of what an honest guest sees beside one that is not honest, by public calls of the world alone. The run of both guests is compared with a
//! run of each guest alone: neither guest is answered otherwise there, nor has other memory or blocks. So nothing of one guest reaches the other,
//! in either direction.

mod bench;
mod busy;
mod carrying;
mod deeds;
mod honest;
mod hostile;
mod mistakes;
mod pairs;
mod parts;
mod rows;
mod runs;
mod tags;
