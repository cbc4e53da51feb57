// What a bank should do on examples, for every kit and both widths, and what its shelf should.
mod counts;
mod desk;
mod order;
mod refusals;
mod shelves;
mod tickets;
mod trips;
