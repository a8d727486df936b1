// What products are called.
use market::Service;

// The names of a service's products, in order.
pub fn product_names(service: Service) -> &'static [&'static str] {
    match service {
        Service::Response => &["DCL", "DCH", "DML", "DMH", "DRL", "DRH"],
        Service::Balancing | Service::Quick | Service::Slow => &["positive", "negative"],
    }
}
